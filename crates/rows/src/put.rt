// One point is put into one row: document 01, 'The table'. A row is sorted by distance then node, with its padding last.
ghost use Rattle.std.specs.Prelude.{◌≡◌, ◌<◌, length};
ghost use Rattle.rows.specs.Put.{insert_at, PlaceOf, PutIn, HasRow, PutInRow};

use crate::order::precedes;

// The first place of the row whose entry comes behind p at distance d.
fn place_of(ids: &[u32], distances: &[u32], p: u32, d: u32) -> Option<usize>
    requires { length distances.now ≡ length ids.now }
    ensures { PlaceOf ids.now distances.now p d result }
{
    for (at, &q) in ids.iter().enumerate() {
        if precedes(p, u64::from(d), q, u64::from(distances[at])) {
            return Some(at);
        }
    }
    None
}

// Puts v at a place; what stands from there on moves up by one, and the last drops.
fn insert_at(row: &mut [u32], place: usize, v: u32)
    requires { place < length row.old }
    ensures { row.new ≡ insert_at place v row.old }
{
    let last = row.len() - 1;
    row.copy_within(place..last, place + 1);
    row[place] = v;
}

// Puts p at distance d into a row. Returns whether the row took it: whether one of its entries, or its padding, comes behind it.
fn put_in(ids: &mut [u32], distances: &mut [u32], p: u32, d: u32) -> bool
    requires { length distances.old ≡ length ids.old }
    ensures { PutIn ids.old distances.old ids.new distances.new p d result }
{
    let Some(at) = place_of(ids, distances, p, d) else {
        return false;
    };
    insert_at(ids, at, p);
    insert_at(distances, at, d);
    true
}

// The same for row i of a table with K places to a row: the row is lent as the part that it is.
pub fn put_in_row(
    ids: &mut [u32],
    distances: &mut [u32],
    places: usize,
    i: usize,
    p: u32,
    d: u32,
) -> bool
    requires { HasRow ids.old distances.old places i }
    ensures { PutInRow ids.old distances.old ids.new distances.new places i p d result }
{
    let a = i * places;
    let e = a + places;
    // Two parameters, here, in take.rt and in table: of a `&mut` part within a struct the proof is told only that its length stays (tried; it didn't close).
    put_in(&mut ids[a..e], &mut distances[a..e], p, d)
}
