// The second expansion of lazy with extended pruning: source 000, section 4.2, the heap H' and the nearest points that each node has found so far.
// The lent words are: found flags n | row ids n k | row words n k | queue, to their end. s and k stay parameters of their own, as in expansion's step.rt.
ghost use Rattle.std.specs.Prelude.{◌≡◌, true, ◌+◌, ◌*◌, ◌≤◌, ◌<◌, length};
ghost use Rattle.network.specs.Network.{neighbours_of};
ghost use Rattle.lazy_searches.specs.Second.{row_distance, second_base, row_ids, row_words, PlaceFor, CanAdmit, OfferedSecond, Admitted, CanAdvance, Advanced, Closed};

use expansion::queue::Entry;
use expansion::{labels, queue, tags};
use network::Network;
use network::distance::Distance;
use network::points::lockers_at;

// The distance that a word of a row stands for: NONE where its place is empty.
fn distance_of(word: u32) -> u32
    ensures { result ≡ row_distance word }
{
    labels::distance_of(0, word).value
}

// A node's row: the point at each place, and beside it its word.
#[derive(Clone, Copy, Debug)]
struct Row<'a> {
    ids: &'a [u32],
    words: &'a [u32],
}

// Node u's row. Nothing is copied.
fn row_of(s: &[u32], n: usize, k: usize, u: u32) -> Row<'_>
    requires { (second_base n k ≤ length s.now) × (u < n) }
    ensures even { length result.ids.now ≡ length result.words.now }
    ensures ids { result.ids.now ≡ row_ids n k s.now u }
    ensures words { result.words.now ≡ row_words n k s.now u }
{
    let row = u as usize * k;
    let a = n + row;
    let b = n + n * k + row;
    Row {
        ids: &s[a..a + k],
        words: &s[b..b + k],
    }
}

impl Row<'_> {
    // The place that p takes in the row, at distance d: the farthest, an empty one first, where p is not in the row and is nearer.
    fn place_for(self, p: u32, d: u32) -> Option<usize>
        requires { length self.ids.now ≡ length self.words.now }
        ensures { PlaceFor self.entry.ids.now self.entry.words.now p d result }
    {
        let mut place = None;
        let mut most = d;
        for (j, &word) in self.words.iter().enumerate() {
            if word != 0 && self.ids[j] == p {
                return None;
            }
            let far = distance_of(word);
            if most < far {
                place = Some(j);
                most = far;
            }
        }
        place
    }
}

// Puts in an entry for each arc of node u that leads to a node whose row has a place for p by now, while the queue has room: p is at distance d from
// u. Returns the queue's length then.
fn offer(g: &Network<'_>, s: &mut [u32], k: usize, len: usize, p: u32, u: u32, d: u32) -> usize
    requires { CanAdmit g.now s.old k len p u d }
    ensures { OfferedSecond g.now s.old s.new k len result p u d (length (neighbours_of g.now u)) }
{
    let n = g.nodes();
    let at = n + 2 * (n * k);
    let ahead = g.neighbours_of(u as usize);
    let weighed = g.weights_of(u as usize);
    let mut more = len;
    for (j, &to) in ahead.iter().enumerate() {
        let far = d + weighed[j];
        if row_of(s, n, k, to).place_for(p, far).is_none() {
            continue;
        }
        if more < (s.len() - at) / 2 {
            let tag = tags::tag_of(p, to);
            queue::push_at(s, at, more, far, tag);
            more += 1;
        }
    }
    more
}

// Point p comes to node u at distance d: where it belongs into u's row, it takes its place and is offered to u's neighbours. Returns the queue's
// length then.
pub fn admit(g: &Network<'_>, s: &mut [u32], k: usize, len: usize, p: u32, u: u32, d: u32) -> usize
    requires { CanAdmit g.now s.old k len p u d }
    ensures { Admitted g.now s.old s.new k len result p u d }
{
    let n = g.nodes();
    let Some(place) = row_of(s, n, k, u).place_for(p, d) else {
        return len;
    };
    let row = u as usize * k;
    s[n + row + place] = p;
    s[n + n * k + row + place] = d + 1;
    offer(g, s, k, len, p, u, d)
}

// Takes out every entry of a distance below l, and lets its point come to its node. Returns the queue's length then.
pub fn advance(g: &Network<'_>, s: &mut [u32], k: usize, len: usize, l: u32) -> usize
    requires { CanAdvance g.now s.old k len l }
    ensures { Advanced g.now s.old s.new k len result }
{
    let n = g.nodes();
    let at = n + 2 * (n * k);
    let mut left = len;
    while 0 < left && queue::least_at(s, at, left) < l {
        let Entry { distance, tag } = queue::pop_at(s, at, left);
        let p = tags::tag_node(tag);
        let u = tags::tag_parent(tag);
        left = admit(g, s, k, left - 1, p, u, distance);
    }
    left
}

// Whether k lockers stand in node u's row at distances below l. A place is taken before those behind it, so an empty one ends the row.
pub fn closed(points: &[u8], s: &[u32], n: usize, k: usize, u: u32, l: u32) -> bool
    requires { (second_base n k ≤ length s.now) × (u < n) }
    ensures { result ≡ true → Closed points.now n s.now k u l }
{
    let row = row_of(s, n, k, u);
    let mut tally = 0;
    for (j, &word) in row.words.iter().enumerate() {
        let far = distance_of(word);
        if far == Distance::NONE || k <= tally {
            break;
        }
        if far < l {
            tally += lockers_at(points, row.ids[j]);
        }
    }
    k <= tally
}
