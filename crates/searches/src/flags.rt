// The found flags: a word for each node, not 0 where the node was found. Words and no bools: the lent scratch holds numbers alone (fixed memory).
ghost use Rattle.std.specs.Prelude.{◌≡◌, ◌+◌, ◌≤◌, length};
ghost use Rattle.network.specs.Count.{select};
ghost use Rattle.network.specs.Answers.{answered};
ghost use Rattle.searches.specs.Eager.{is_found};

// Writes the nodes whose found flag is set, ascending. The flags start at word b. Returns how many.
pub fn write_found(s: &[u32], answers: &mut [u32], b: usize, n: usize) -> usize
    requires { (b + n ≤ length s.now) × (n ≤ length answers.old) × (n ≤ 65535) }
    ensures { (answers.new ≡ answered (select (is_found b s.now) n) answers.old) × (result ≡ length (select (is_found b s.now) n)) }
{
    let mut len = 0;
    for at in 0..n {
        if s[b + at] != 0 {
            answers[len] = at as u32;
            len += 1;
        }
    }
    len
}
