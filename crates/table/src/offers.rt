// Offers, which build and remove both put into their queue behind n words of scratch: a point, at a distance, to the row of a node.
ghost use Rattle.std.specs.Prelude.{◌≡◌, ◌+◌, ◌*◌, ◌≤◌, ◌<◌, length, drop};
ghost use Rattle.expansion.specs.Queue.{Queue, PushedAt};
ghost use Rattle.table.specs.Offer.{offer_of, FirstTaken};

use expansion::queue::Entry;
use expansion::{queue, tags};

// A point that may stand in the row of a node, at a distance.
#[derive(Clone, Copy, Debug, PartialEq, Eq)]
pub struct Offer {
    pub node: u32,
    pub point: u32,
    pub distance: u32,
}

// Adds an offer to the `len` that wait.
pub fn push(s: &mut [u32], n: usize, len: usize, offer: Offer)
    requires queue { Queue (drop n s.old) len }
    requires len_in_bounds { n + (2 * len + 2) ≤ length s.old }
    requires nodes { (offer.point < 65536) × (offer.node < 65536) }
    ensures { PushedAt s.old s.new n len (offer_of offer.node offer.point offer.distance) }
{
    let tag = tags::tag_of(offer.point, offer.node);
    queue::push_at(s, n, len, offer.distance, tag);
}

// Takes out the first offer, by distance and point, of the `len` that wait.
pub fn pop(s: &mut [u32], n: usize, len: usize) -> Option<Offer>
    requires { Queue (drop n s.old) len }
    ensures { FirstTaken s.old s.new n len result }
{
    if len == 0 {
        return None;
    }
    let Entry { distance, tag } = queue::pop_at(s, n, len);
    Some(Offer {
        node: tags::tag_parent(tag),
        point: tags::tag_node(tag),
        distance,
    })
}
