// The node queue: a binary heap in which every node stands at most once, so that a node's label can be lowered and n entries are enough. Entry i is
// two words from word `at` on, as in queue.rt: its tag at 2 i and its distance at 2 i + 1. Node v's seat is the word b + v: i + 1 while v waits as
// entry i, 0 or a word above n while it doesn't wait. One word and no enum, and the length beside: the lent scratch holds numbers alone (fixed memory).
ghost use Rattle.std.specs.Prelude.{◌≡◌, ◌+◌, ◌*◌, ◌≤◌, ◌<◌, length, drop};
ghost use Rattle.expansion.specs.Queue.{key_of, entry_key, key_at, LeastChild, CanSink, CanRise, Sank};
ghost use Rattle.expansion.specs.Tags.{node_of};
ghost use Rattle.expansion.specs.Area.{queue_base};
ghost use Rattle.expansion.specs.NodeQueue.{Free, NodeQueue, CanLower, PushedNode, LoweredNode, PoppedNode, ClearedNodes, OfferedNode, CanPut, PutAt, CanShift, Vacated, Seats, FilledAt};

use crate::queue::Entry;
use crate::{queue, tags};

// Entry i.
fn entry_at(s: &[u32], at: usize, i: usize) -> Entry
    requires { at + 2 * i + 2 ≤ length s.now }
    ensures { entry_key result ≡ key_at (drop at s.now) i }
{
    queue::entry_at(&s[at..], i)
}

// The key of entry i.
fn key_at(s: &[u32], at: usize, i: usize) -> u64
    requires { at + 2 * i + 2 ≤ length s.now }
    ensures { result ≡ key_at (drop at s.now) i }
{
    queue::key_at(&s[at..], i)
}

// The node of an entry.
fn node_of(entry: Entry) -> usize
    ensures { result ≡ node_of (entry_key entry) }
{
    tags::tag_node(entry.tag) as usize
}

// Stores an entry as entry i, and its node's seat.
fn put(s: &mut [u32], b: usize, at: usize, i: usize, entry: Entry)
    requires { CanPut s.old b at i (entry_key entry) }
    ensures { PutAt s.old s.new b at i (entry_key entry) }
{
    queue::put(&mut s[at..], i, entry);
    s[b + node_of(entry)] = i as u32 + 1;
}

// Copies the entry at `from` over the one at `to`, and gives its node that seat.
fn shift(s: &mut [u32], b: usize, at: usize, from: usize, to: usize)
    requires { CanShift s.old b at from to }
    ensures { PutAt s.old s.new b at to (key_at (drop at s.old) from) }
{
    let entry = entry_at(s, at, from);
    put(s, b, at, to, entry);
}

// The child of entry i with the lesser key. It has one.
fn lesser_child(s: &[u32], at: usize, len: usize, i: usize) -> usize
    requires { (at + 2 * len ≤ length s.now) × (2 * i + 1 < len) }
    ensures { LeastChild (drop at s.now) len i result }
{
    queue::lesser_child(&s[at..], len, i)
}

// Fills the hole with an entry: children with lesser keys move up, and the entry is stored once, in its final place. Returns how many entries it
// stored: one for each level that the entry sank, and the entry.
// (`sink` and `rise` stand here as in queue.rt: one generic pair is no plainer, as the trait of both queues has five ghost members and seven laws, and
// the proofs of the laws would have to stand in specs/.)
fn sink(s: &mut [u32], b: usize, at: usize, len: usize, hole: usize, entry: Entry) -> usize
    requires { CanSink (drop at s.old) len hole (entry_key entry) × Seats s.old b at len hole (entry_key entry) }
    ensures filled_at { FilledAt s.old s.new b at len hole (entry_key entry) }
    ensures sank { Sank (drop at s.old) (drop at s.new) len hole (entry_key entry) result }
{
    let left = 2 * hole + 1;
    if left < len {
        let child = lesser_child(s, at, len, hole);
        let k = key_at(s, at, child);
        if k < entry.key() {
            shift(s, b, at, child, hole);
            sink(s, b, at, len, child, entry) + 1
        } else {
            put(s, b, at, hole, entry);
            1
        }
    } else {
        put(s, b, at, hole, entry);
        1
    }
}

// Fills the hole at `start` with an entry: parents with greater keys move down, and the entry is stored once, in its final place.
fn rise(s: &mut [u32], b: usize, at: usize, len: usize, start: usize, entry: Entry)
    requires { CanRise (drop at s.old) len start (entry_key entry) × Seats s.old b at len start (entry_key entry) }
    ensures { FilledAt s.old s.new b at len start (entry_key entry) }
{
    let key = entry.key();
    let mut hole = start;
    while 0 < hole {
        let parent = (hole - 1) / 2;
        let k = key_at(s, at, parent);
        if k <= key {
            put(s, b, at, hole, entry);
            return;
        }
        shift(s, b, at, parent, hole);
        hole = parent;
    }
    put(s, b, at, hole, entry);
}

// Adds an entry of a node that doesn't wait to a queue of `len` entries.
pub fn push(s: &mut [u32], b: usize, n: usize, len: usize, distance: u32, tag: u32)
    requires node_queue { NodeQueue n s.old b (queue_base n b) len }
    requires tag_bound { (node_of (key_of distance tag) < n) × Free n s.old b (node_of (key_of distance tag)) }
    ensures { PushedNode n s.old s.new b (queue_base n b) len (key_of distance tag) }
{
    rise(s, b, b + 2 * n, len + 1, len, Entry { distance, tag });
}

// Replaces entry i of a queue of `len` entries by one of the same node with a lesser key.
fn lower(s: &mut [u32], b: usize, n: usize, len: usize, i: usize, entry: Entry)
    requires node_queue { NodeQueue n s.old b (queue_base n b) len }
    requires can_lower { CanLower (drop (queue_base n b) s.old) len i (entry_key entry) }
    ensures { LoweredNode n s.old s.new b (queue_base n b) len (entry_key entry) }
{
    rise(s, b, b + 2 * n, len, i, entry);
}

// Makes the words of entry i and a node's seat 0.
fn vacate(s: &mut [u32], b: usize, at: usize, i: usize, node: usize)
    requires { (at + 2 * i + 2 ≤ length s.old) × (b + node < at) }
    ensures { Vacated s.old s.new b at i node }
{
    queue::put(&mut s[at..], i, queue::ZERO);
    s[b + node] = 0;
}

// Takes an entry of the least distance, and of the smallest node among equal distances (Ask 4), out of a queue of `len` entries. Its node's seat is 0
// then.
pub fn pop(s: &mut [u32], b: usize, n: usize, len: usize) -> Entry
    requires node_queue { NodeQueue n s.old b (queue_base n b) len }
    requires len_nonzero { 0 < len }
    ensures { PoppedNode n s.old s.new b (queue_base n b) len (key_of result.distance result.tag) }
{
    let at = b + 2 * n;
    let first = entry_at(s, at, 0);
    let last = entry_at(s, at, len - 1);
    vacate(s, b, at, len - 1, node_of(first));
    if 1 < len {
        sink(s, b, at, len - 1, 0, last);
    }
    first
}

// Puts in an entry, unless its node is settled or waits with a key that is no greater. Returns the queue's length then.
pub fn offer(s: &mut [u32], b: usize, n: usize, len: usize, distance: u32, tag: u32) -> usize
    requires node_queue { NodeQueue n s.old b (queue_base n b) len }
    requires tag_bound { node_of (key_of distance tag) < n }
    ensures { OfferedNode n s.old s.new b (queue_base n b) len result (key_of distance tag) }
{
    let entry = Entry { distance, tag };
    let seat = s[b + node_of(entry)] as usize;
    if n < seat {
        return len;
    }
    if seat == 0 {
        push(s, b, n, len, distance, tag);
        return len + 1;
    }
    let old = key_at(s, b + 2 * n, seat - 1);
    if entry.key() < old {
        lower(s, b, n, len, seat - 1, entry);
    }
    len
}

// Zeroes the words of a queue of `len` entries, and the seats of their nodes.
pub fn clear(s: &mut [u32], b: usize, n: usize, len: usize)
    requires { NodeQueue n s.old b (queue_base n b) len }
    ensures { ClearedNodes n s.old s.new b (queue_base n b) }
{
    let at = b + 2 * n;
    for i in 0..len {
        let entry = entry_at(s, at, i);
        vacate(s, b, at, i, node_of(entry));
    }
}
