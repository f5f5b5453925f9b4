// Remove: document 01, 'The table'. One locker of the node is taken out of every row that shows all of them before the first is filled. Such a row is
// short: it wants one entry, the best that its neighbours' rows hold and it lacks. The first offer, by distance and point, is taken out; a short
// row that lacks a locker of its point takes it, is short no more, and offers it to its short neighbours. Words of scratch: short flags n | queue;
// the flags are words, as scratch holds numbers alone (fixed memory).
ghost use Rattle.std.specs.Prelude.{◌≤◌, ◌<◌, ◌≡◌, length, ltb};
ghost use Rattle.network.specs.Network.{node_count, neighbours_of};
ghost use Rattle.network.specs.Points.{lockers, fewer_at};
ghost use Rattle.rows.specs.Check.{among};
ghost use Rattle.table.specs.Candidate.{Better, BestOfRow, CanChoose, BestOf};
ghost use Rattle.table.specs.Offer.{CanOffer};
ghost use Rattle.table.specs.Mend.{CanFree, Freed, CanSeedShort, ShortSeeded, PutLast, CanTakeIn, TakenIn, OfferedShort, CanFill, FillLeft};
ghost use Rattle.table.specs.Remove.{CanRemove};
ghost use Rattle.table.specs.Updated.{UpdateLeft};

use crate::offers;
use crate::offers::Offer;
use network::Network;
use network::distance::Distance;
use network::points::lockers_at;
use rows::rows::among;
use rows::table::{Row, Table};
use rows::take::take_out_of_row;

// An entry that a short row may take. The better one comes first, by distance and then by point.
#[derive(Clone, Copy, Debug, PartialEq, Eq, PartialOrd, Ord)]
struct Candidate {
    distance: u32,
    point: u32,
}

// Takes one locker of a node out of every row that has all of them, and flags these rows. Returns how many.
fn free(
    s: &mut [u32],
    ids: &mut [u32],
    distances: &mut [u32],
    n: usize,
    places: usize,
    x: u32,
    all: usize,
) -> u32
    requires { CanFree s.old ids.old distances.old n places }
    ensures { Freed s.old s.new ids.old distances.old ids.new distances.new places x all n result }
{
    let mut changed = 0;
    for i in 0..n {
        if take_out_of_row(ids, distances, places, i, x, all) {
            s[i] = 1;
            changed += 1;
        }
    }
    changed
}

// Whether a row lacks a locker of a node: it shows fewer than the node has, which are none where the word is no node.
fn lacks(points: &[u8], own: &[u32], p: u32) -> bool
    ensures { result ≡ ltb (among own.now p (length own.now)) (lockers points.now p) }
{
    among(own, p, own.len()) < lockers_at(points, p)
}

// The better of a candidate and what an entry (p, e) of a neighbour's row gives over an arc of weight w: a point that the row lacks, at a distance
// that can be one.
fn better(
    points: &[u8],
    own: &[u32],
    best: Option<Candidate>,
    p: u32,
    e: u32,
    w: u32,
) -> Option<Candidate>
    requires { w ≤ 65535 }
    ensures { Better points.now own.now best result p e w }
{
    if Distance::LONGEST < e {
        return best;
    }
    let other = Candidate {
        distance: e + w,
        point: p,
    };
    if best.is_some_and(|b| b <= other) || !lacks(points, own, p) {
        return best;
    }
    Some(other)
}

// The best of a candidate and what a neighbour's row gives over an arc of weight w.
fn best_of_row(
    points: &[u8],
    own: &[u32],
    row: Row<'_>,
    w: u32,
    best: Option<Candidate>,
) -> Option<Candidate>
    requires { w ≤ 65535 }
    ensures { BestOfRow points.now own.now row.entry.ids.now row.entry.distances.now w (length row.entry.ids.now) best result }
{
    let Row { ids, distances } = row;
    let mut least = best;
    for (j, &p) in ids.iter().enumerate() {
        least = better(points, own, least, p, distances[j], w);
    }
    least
}

// The best entry that the rows of a node's neighbours hold and its own lacks.
fn best_candidate(g: &Network<'_>, points: &[u8], table: Table<'_>, i: usize) -> Option<Candidate>
    requires { CanChoose g.now table.ids.now table.distances.now table.places i }
    ensures { BestOf g.now points.now table.entry.ids.now table.entry.distances.now table.entry.places i (length (neighbours_of g.now i)) result }
{
    let neighbours = g.neighbours_of(i);
    let weights = g.weights_of(i);
    let own = table.row(i).ids;
    let mut best = None;
    for (j, &to) in neighbours.iter().enumerate() {
        best = best_of_row(points, own, table.row(to as usize), weights[j], best);
    }
    best
}

// Offers each short row its best candidate. Returns how many offers wait.
fn seed(g: &Network<'_>, points: &[u8], s: &mut [u32], table: Table<'_>) -> usize
    requires { CanSeedShort g.now points.now s.old table.ids.now table.distances.now table.places }
    ensures { ShortSeeded g.now points.now s.old s.new table.entry.ids.now table.entry.distances.now table.entry.places (node_count g.now) result }
{
    let n = g.nodes();
    let mut len = 0;
    for i in 0..n {
        if s[i] != 1 {
            continue;
        }
        if let Some(best) = best_candidate(g, points, table, i) {
            let offer = Offer {
                node: i as u32,
                point: best.point,
                distance: best.distance,
            };
            offers::push(s, n, len, offer);
            len += 1;
        }
    }
    len
}

// Puts (p, d) at the last place of a row that lacks a locker of p. Returns whether it did.
fn put_last(points: &[u8], ids: &mut [u32], distances: &mut [u32], p: u32, d: u32) -> bool
    requires { (length distances.old ≡ length ids.old) × (1 ≤ length ids.old) }
    ensures { PutLast points.now ids.old distances.old ids.new distances.new p d result }
{
    if !lacks(points, ids, p) {
        return false;
    }
    let last = ids.len() - 1;
    ids[last] = p;
    distances[last] = d;
    true
}

// A short row takes an offer, where it lacks its point and its distance can be one; it is short no more. Its last place is free: it lost one. Returns
// whether it did.
fn take_in(
    points: &[u8],
    s: &mut [u32],
    ids: &mut [u32],
    distances: &mut [u32],
    places: usize,
    offer: Offer,
) -> bool
    requires { CanTakeIn s.old ids.old distances.old places offer.node }
    ensures { TakenIn points.now s.old s.new ids.old distances.old ids.new distances.new places offer.node offer.point offer.distance result }
{
    let Offer {
        node,
        point,
        distance,
    } = offer;
    let i = node as usize;
    if s[i] != 1 || Distance::LONGEST < distance {
        return false;
    }
    let a = i * places;
    let e = a + places;
    if !put_last(
        points,
        &mut ids[a..e],
        &mut distances[a..e],
        point,
        distance,
    ) {
        return false;
    }
    s[i] = 0;
    true
}

// Offers an entry of a node's row to the short rows that its arcs lead to, at the distance over the arc. Returns how many offers wait then. Build's
// differs by its test of the row; a closure for it is no plainer: each caller then states the test twice, as code and as the ghost test of the contract.
fn offer_on(g: &Network<'_>, s: &mut [u32], len: usize, offer: Offer) -> usize
    requires { CanOffer g.now s.old len offer.node offer.point offer.distance }
    ensures { OfferedShort g.now s.old s.new len result offer.node offer.point offer.distance (length (neighbours_of g.now offer.node)) }
{
    let n = g.nodes();
    let Offer {
        node,
        point,
        distance,
    } = offer;
    let neighbours = g.neighbours_of(node as usize);
    let weights = g.weights_of(node as usize);
    let mut more = len;
    for (j, &to) in neighbours.iter().enumerate() {
        if s[to as usize] == 1 {
            let on = Offer {
                node: to,
                point,
                distance: distance + weights[j],
            };
            offers::push(s, n, more, on);
            more += 1;
        }
    }
    more
}

// Takes the first offer out until none waits. Build's loop differs by who takes an offer and who is offered it next: a common one would take both as
// closures over the same s.
fn fill(
    g: &Network<'_>,
    points: &[u8],
    s: &mut [u32],
    len: usize,
    ids: &mut [u32],
    distances: &mut [u32],
    places: usize,
)
    requires { CanFill g.now s.old len ids.old distances.old places }
    ensures { FillLeft g.now points.now s.old s.new len ids.old distances.old ids.new distances.new places }
{
    let n = g.nodes();
    let mut left = len;
    while let Some(offer) = offers::pop(s, n, left) {
        left -= 1;
        if take_in(points, s, ids, distances, places, offer) {
            left = offer_on(g, s, left, offer);
        }
    }
}

// Takes one locker of a node away and brings the table up to date. Returns how many rows changed. All words are 0 before and after.
pub fn remove(
    g: &Network<'_>,
    points: &mut [u8],
    s: &mut [u32],
    ids: &mut [u32],
    distances: &mut [u32],
    x: u32,
    places: usize,
) -> u32
    requires { CanRemove g.now points.old s.old ids.old distances.old x places }
    ensures { UpdateLeft g.now points.old (fewer_at points.old x) points.new s.old s.new ids.old distances.old ids.new distances.new places result }
{
    let n = g.nodes();
    let all = lockers_at(points, x);
    points[x as usize] -= 1;
    let changed = free(s, ids, distances, n, places, x, all);
    let table = Table {
        ids,
        distances,
        places,
    };
    let len = seed(g, points, s, table);
    fill(g, points, s, len, ids, distances, places);
    s.fill(0);
    changed
}
