// The table as it is lent, and its rows as the parts of the caller's arrays that they are: document 01, 'The table'.
ghost use Rattle.std.specs.Prelude.{◌≡◌, length};
ghost use Rattle.network.specs.Rows.{row_entries};
ghost use Rattle.rows.specs.Check.{HasRows};

use crate::rows;

// A row: a node at each place, and beside it its distance.
#[derive(Clone, Copy, Debug)]
pub struct Row<'a> {
    pub ids: &'a [u32],
    pub distances: &'a [u32],
    pub ghost even: { length distances.now ≡ length ids.now },
}

// 'Two arrays of n × K entries, ids and distances', and K, the places to a row.
#[derive(Clone, Copy, Debug)]
pub struct Table<'a> {
    pub ids: &'a [u32],
    pub distances: &'a [u32],
    pub places: usize,
}

impl<'a> Table<'a> {
    // Row i. Nothing is copied.
    pub fn row(self, i: usize) -> Row<'a>
        requires { HasRows self.places self.ids.now self.distances.now i }
        ensures ids { result.ids.now ≡ row_entries self.entry.places i self.entry.ids.now }
        ensures distances { result.distances.now ≡ row_entries self.entry.places i self.entry.distances.now }
    {
        Row {
            ids: rows::row_of(self.ids, i, self.places),
            distances: rows::row_of(self.distances, i, self.places),
        }
    }
}
