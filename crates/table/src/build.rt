// Build: source 000, Fig. 8. Every point is offered to its own node's row; the first offer, by distance and point, is taken out, and where the
// row has a free place and lacks the point it takes it, once for each of its lockers or as often as there is room for, and those neighbours whose
// rows have a place for it are offered it in turn. Document 01, 'The table': 'Build fills it.'
ghost use Rattle.std.specs.Prelude.{◌≡◌, ◌≤◌, ◌<◌, length};
ghost use Rattle.network.specs.Network.{neighbours_of};
ghost use Rattle.table.specs.Build.{HasPlaceIs, CanReadRow, HasPlaceAtIs, Appended, CanAppend, AppendedAt, CanOfferOn, OfferedOn, CanSeedPoints, PointsSeeded, CanSpread, SpreadLeft, CanBuild, BuildLeft};

use crate::offers;
use crate::offers::Offer;
use network::Network;
use network::distance::Distance;
use network::points::lockers_at;
use rows::rows::row_of;

// Whether a row of `size` entries has a place for a point: one is free, and the row lacks the point.
fn has_place(ids_row: &[u32], size: usize, p: u32) -> bool
    requires { size ≤ length ids_row.now }
    ensures { HasPlaceIs ids_row.now size p result }
{
    size < ids_row.len() && !ids_row[..size].contains(&p)
}

// The same of a node's row, lent as the part of the ids that it is. Its size is the node's word of scratch.
fn has_place_at(s: &[u32], ids: &[u32], places: usize, node: u32, p: u32) -> bool
    requires { CanReadRow s.now ids.now places node }
    ensures { HasPlaceAtIs s.now ids.now places node p result }
{
    let at = node as usize;
    has_place(row_of(ids, at, places), s[at] as usize, p)
}

// Puts (p, d) behind the `size` entries of a row where it has a place for p, once for each of p's lockers or as often as there is room for. Returns
// how many entries the row has then, if it took p.
fn append(
    ids_row: &mut [u32],
    distances_row: &mut [u32],
    size: usize,
    p: u32,
    d: u32,
    all: usize,
) -> Option<usize>
    requires { (length distances_row.old ≡ length ids_row.old) × (size ≤ length ids_row.old) × (0 < all) }
    ensures { Appended ids_row.old ids_row.new distances_row.old distances_row.new size p d all result }
{
    if !has_place(ids_row, size, p) {
        return None;
    }
    let end = size + all.min(ids_row.len() - size);
    ids_row[size..end].fill(p);
    distances_row[size..end].fill(d);
    Some(end)
}

// The same of the row that an offer is made to, lent as the part of both arrays that it is. Its size is the node's word of scratch. Returns whether it
// took the point.
fn append_at(
    s: &mut [u32],
    ids: &mut [u32],
    distances: &mut [u32],
    places: usize,
    offer: Offer,
    all: usize,
) -> bool
    requires { CanAppend s.old ids.old distances.old places offer.node all }
    ensures { AppendedAt s.old s.new ids.old ids.new distances.old distances.new places offer.node offer.point offer.distance all result }
{
    let Offer {
        node,
        point,
        distance,
    } = offer;
    let at = node as usize;
    let from = at * places;
    let end = from + places;
    let Some(size) = append(
        &mut ids[from..end],
        &mut distances[from..end],
        s[at] as usize,
        point,
        distance,
        all,
    ) else {
        return false;
    };
    s[at] = size as u32;
    true
}

// Offers a point of a node's row to the nodes that its arcs lead to, at the distance over the arc, where their rows have a place for it: a row that
// has none now has none later, and would refuse the offer. Returns how many offers wait then.
fn offer_on(
    g: &Network<'_>,
    s: &mut [u32],
    ids: &[u32],
    places: usize,
    len: usize,
    offer: Offer,
) -> usize
    requires { CanOfferOn g.now s.old ids.now places len offer.node offer.point offer.distance }
    ensures { OfferedOn g.now s.old s.new ids.now places len result offer.node offer.point offer.distance (length (neighbours_of g.now offer.node)) }
{
    let n = g.nodes();
    let Offer {
        node,
        point,
        distance,
    } = offer;
    let neighbours = g.neighbours_of(node as usize);
    let weights = g.weights_of(node as usize);
    let mut more = len;
    for (j, &to) in neighbours.iter().enumerate() {
        if has_place_at(s, ids, places, to, point) {
            let on = Offer {
                node: to,
                point,
                distance: distance + weights[j],
            };
            offers::push(s, n, more, on);
            more += 1;
        }
    }
    more
}

// Offers every point to its own node's row. Returns how many there are.
fn seed(points: &[u8], s: &mut [u32]) -> usize
    requires { CanSeedPoints points.now s.old }
    ensures { PointsSeeded points.now s.old s.new (length points.now) result }
{
    let n = points.len();
    let mut len = 0;
    for (i, &mark) in points.iter().enumerate() {
        if 0 < mark {
            let own = Offer {
                node: i as u32,
                point: i as u32,
                distance: 0,
            };
            offers::push(s, n, len, own);
            len += 1;
        }
    }
    len
}

// Offers every point to its own node's row, and takes the offers out, by distance and point: a row that has a place for the point takes it, and the node's
// neighbours are offered it. The queue is empty at the end.
fn spread(
    g: &Network<'_>,
    points: &[u8],
    s: &mut [u32],
    ids: &mut [u32],
    distances: &mut [u32],
    places: usize,
)
    requires { CanSpread g.now points.now s.old ids.old distances.old places }
    ensures { SpreadLeft g.now points.now s.old s.new ids.new distances.new places }
{
    let n = g.nodes();
    let mut left = seed(points, s);
    while let Some(offer) = offers::pop(s, n, left) {
        left -= 1;
        let all = lockers_at(points, offer.point);
        if append_at(s, ids, distances, places, offer, all) {
            left = offer_on(g, s, ids, places, left, offer);
        }
    }
}

// Fills both arrays with the table of the points, whatever they hold. The scratch is all 0 before and after.
pub fn build(
    g: &Network<'_>,
    points: &[u8],
    s: &mut [u32],
    ids: &mut [u32],
    distances: &mut [u32],
    places: usize,
)
    requires { CanBuild g.now points.now s.old ids.old distances.old places }
    ensures { BuildLeft g.now points.now s.old s.new ids.new distances.new places }
{
    ids.fill(Distance::NONE);
    distances.fill(Distance::NONE);
    spread(g, points, s, ids, distances, places);
    s.fill(0);
}
