// One point is taken out of one row: document 01, 'The table'.
ghost use Rattle.std.specs.Prelude.{◌<◌, ◌≡◌, ◌==◌, position, length};
ghost use Rattle.rows.specs.Put.{HasRow};
ghost use Rattle.rows.specs.Take.{TakenAt, TakenOut, TakenOutOfRow};

use crate::rows;
use network::distance::Distance;

// The first place of a row that holds p.
fn place_of_point(ids: &[u32], p: u32) -> Option<usize>
    ensures { result ≡ position (λ q. q == p) ids.now }
{
    ids.iter().position(|&q| q == p)
}

// Takes out what stands at a place: those behind it move down by one, and the last place is empty.
fn take_at(row: &mut [u32], place: usize)
    requires { place < length row.old }
    ensures { TakenAt row.old row.new place }
{
    let last = row.len() - 1;
    row.copy_within(place + 1.., place);
    row[last] = Distance::NONE;
}

// Takes one locker of a node out of a row that has all of them, and there is one. Returns whether it has.
fn take_out(ids: &mut [u32], distances: &mut [u32], p: u32, all: usize) -> bool
    requires { length distances.old ≡ length ids.old }
    ensures { TakenOut ids.old distances.old ids.new distances.new p all result }
{
    if rows::among(ids, p, ids.len()) != all {
        return false;
    }
    if let Some(at) = place_of_point(ids, p) {
        take_at(ids, at);
        take_at(distances, at);
    }
    true
}

// The same for row i of a table with K places to a row: the row is lent as the part that it is.
pub fn take_out_of_row(
    ids: &mut [u32],
    distances: &mut [u32],
    places: usize,
    i: usize,
    p: u32,
    all: usize,
) -> bool
    requires { HasRow ids.old distances.old places i }
    ensures { TakenOutOfRow ids.old distances.old ids.new distances.new places i p all result }
{
    let a = i * places;
    let e = a + places;
    take_out(&mut ids[a..e], &mut distances[a..e], p, all)
}
