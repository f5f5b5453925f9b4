// The steps of an expansion over its area of scratch: seats n | settled nodes n | node queue 2 n, from word b of the lent slice on.
// s, b and n stay parameters of their own: callers use the words before b between two steps, so a struct that lends s would be made anew at each call.
// b and n alone, as one copied value, would stand for two numbers that each caller has at hand. The searches above each write the loop over next, settle
// and open: a common one would take each turn as a closure, and each search's invariant as a ghost member with laws of its own: no plainer.
ghost use Rattle.std.specs.Prelude.{◌≡◌, ◌+◌, ◌*◌, ◌≤◌, ◌<◌, length, set};
ghost use Rattle.network.specs.Network.{neighbours_of};
ghost use Rattle.expansion.specs.Queue.{key_of};
ghost use Rattle.expansion.specs.Tags.{tag_of};
ghost use Rattle.expansion.specs.Area.{queue_base, Blank, Wiped, Area, CanFollow, Followed};
ghost use Rattle.expansion.specs.NodeQueue.{NodeQueue, PushedNode};
ghost use Rattle.expansion.specs.Taken.{TakenIs};

use crate::queue::Entry;
use crate::{node_queue, tags};
use network::Network;

// What leaves the queue: an entry that none precedes, by label and then by node, and how many are left.
#[derive(Clone, Copy, Debug, PartialEq, Eq)]
pub struct Taken {
    pub label: u32,
    pub node: u32,
    pub parent: u32,
    pub left: usize,
}

// Puts in the first entry: the source, at label 0.
pub fn start(s: &mut [u32], b: usize, n: usize, source: u32)
    requires blank { Blank s.old b }
    requires n_in_bounds { (queue_base n b + 2 * n ≤ length s.old) × (source < n) × (n ≤ 65535) }
    ensures { PushedNode n s.old s.new b (queue_base n b) 0 (key_of 0 (tag_of source source)) }
{
    let tag = tags::tag_of(source, source);
    node_queue::push(s, b, n, 0, 0, tag);
}

// Takes out an entry of the least label, and of the smallest node among equal labels (Ask 4).
pub fn next(s: &mut [u32], b: usize, n: usize, len: usize) -> Option<Taken>
    requires { NodeQueue n s.old b (queue_base n b) len }
    ensures { TakenIs n s.old s.new b len result }
{
    if len == 0 {
        return None;
    }
    let Entry { distance, tag } = node_queue::pop(s, b, n, len);
    Some(Taken {
        label: distance,
        node: tags::tag_node(tag),
        parent: tags::tag_parent(tag),
        left: len - 1,
    })
}

// Settles a node: its label, and its place behind the nodes settled so far.
pub fn settle(s: &mut [u32], b: usize, n: usize, settled: usize, node: u32, label: u32)
    requires { (b + n + settled < length s.old) × (b + node < length s.old) × (label + n + 1 < 4294967296) × (n ≤ 65535) }
    ensures { s.new ≡ set (set s.old (b + node) (label + n + 1)) (b + n + settled) node }
{
    s[b + node as usize] = label + n as u32 + 1;
    s[b + n + settled] = node;
}

// Puts in an entry for each arc of a node, unless it leads to a settled node or to one that waits with no greater label. Returns how many wait then.
pub fn open(g: &Network<'_>, s: &mut [u32], b: usize, len: usize, node: u32, label: u32) -> usize
    requires { CanFollow g.now s.old b len node label }
    ensures { Followed g.now s.old s.new b len result node label (length (neighbours_of g.now node)) }
{
    let n = g.nodes();
    let neighbours = g.neighbours_of(node as usize);
    let weights = g.weights_of(node as usize);
    let mut more = len;
    for (j, &to) in neighbours.iter().enumerate() {
        let far = label + weights[j];
        let tag = tags::tag_of(to, node);
        more = node_queue::offer(s, b, n, more, far, tag);
    }
    more
}

// Clears the area, at the cost of what was touched.
pub fn clear(s: &mut [u32], b: usize, n: usize, settled: usize, len: usize)
    requires { Area n s.old b settled len }
    ensures { Wiped s.old s.new b }
{
    node_queue::clear(s, b, n, len);
    for i in 0..settled {
        let at = b + n + i;
        let node = s[at] as usize;
        s[at] = 0;
        s[b + node] = 0;
    }
}
