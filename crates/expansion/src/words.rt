// Words of scratch that become answers.
ghost use Rattle.std.specs.Prelude.{◌+◌, ◌≤◌, ◌≡◌, length, get_or};
ghost use Rattle.network.specs.Count.{tabulate};
ghost use Rattle.network.specs.Answers.{answered};

// Copies `count` words from word `at` on to the front of an answer array.
pub fn copy(from: &[u32], at: usize, count: usize, answers: &mut [u32])
    requires { (at + count ≤ length from.now) × (count ≤ length answers.old) }
    ensures { answers.new ≡ answered (tabulate (λ i. get_or from.now (at + i) 0) count) answers.old }
{
    // Not copy_from_slice: an archive for C would need memmove from outside.
    for i in 0..count {
        answers[i] = from[at + i];
    }
}
