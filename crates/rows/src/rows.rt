// A row of the table as the part of the caller's array that it is: document 01, 'The table'.
ghost use Rattle.std.specs.Prelude.{◌≡◌, ◌+◌, ◌*◌, ◌≤◌, length};
ghost use Rattle.network.specs.Rows.{row_entries};
ghost use Rattle.rows.specs.Check.{among};

// Row i of the ids or of the distances, with some places to a row. Nothing is copied.
pub fn row_of<'a>(entries: &'a [u32], i: usize, places: usize) -> &'a [u32]
    requires { i * places + places ≤ length entries.now }
    ensures { result.now ≡ row_entries places i entries.now }
{
    let from = i * places;
    &entries[from..from + places]
}

// How many of the first k ids of a row are p.
pub fn among(ids: &[u32], p: u32, k: usize) -> usize
    requires { k ≤ length ids.now }
    ensures { result ≡ among ids.now p k }
{
    let mut count = 0;
    for &q in &ids[..k] {
        count += usize::from(q == p);
    }
    count
}
