// The queue: a binary heap in a lent slice of words, least entry first. Entry i is two words, its tag at 2 i and its distance at 2 i + 1, and
// entries are ordered by one number, the key: distance * 2^32 + tag. So the words are those of the key, the lower one first, and one load reads it.
// Words behind the queue's entries are zero, so that a queue that is popped empty is all zero. The length is passed beside the slice: memory is lent and
// fixed (a rule of the project).
ghost use Rattle.std.specs.Prelude.{◌≡◌, ◌+◌, ◌*◌, ◌≤◌, ◌<◌, length, get_or, drop};
ghost use Rattle.expansion.specs.Queue.{key_of, entry_key, key_at, Queue, Pushed, Popped, LeastDistance, PushedAt, PoppedAt, Put, LeastChild, Children, Chosen, CanSink, CanRise, Filled, Sank};

// An entry of a queue.
#[derive(Clone, Copy, Debug, PartialEq, Eq)]
pub struct Entry {
    pub distance: u32,
    pub tag: u32,
}

// The number that entries are ordered by.
pub fn key_of(distance: u32, tag: u32) -> u64
    ensures { result ≡ key_of distance tag }
{
    u64::from(distance) * 4294967296 + u64::from(tag)
}

impl Entry {
    pub fn key(self) -> u64
        ensures { result ≡ entry_key self }
    {
        key_of(self.distance, self.tag)
    }
}

// What stands behind the queue's entries.
pub(crate) const ZERO: Entry = Entry {
    distance: 0,
    tag: 0,
};

// Entry i.
#[tactic(auto, unfolding(crate::specs::Queue::key_at))]
pub(crate) fn entry_at(q: &[u32], i: usize) -> Entry
    requires { 2 * i + 2 ≤ length q.now }
    ensures distance { result.distance ≡ get_or q.now (2 * i + 1) 0 }
    ensures tag { result.tag ≡ get_or q.now (2 * i) 0 }
    ensures key { entry_key result ≡ key_at q.now i }
{
    Entry {
        distance: q[2 * i + 1],
        tag: q[2 * i],
    }
}

// The key of entry i.
pub(crate) fn key_at(q: &[u32], i: usize) -> u64
    requires { 2 * i + 2 ≤ length q.now }
    ensures { result ≡ key_at q.now i }
{
    entry_at(q, i).key()
}

// Stores an entry as entry i.
pub(crate) fn put(q: &mut [u32], i: usize, entry: Entry)
    requires { 2 * i + 2 ≤ length q.old }
    ensures { Put q.old q.new i entry.distance entry.tag }
{
    q[2 * i] = entry.tag;
    q[2 * i + 1] = entry.distance;
}

// Copies the entry at `from` over the one at `to`.
fn copy(q: &mut [u32], from: usize, to: usize)
    requires { (2 * to + 2 ≤ length q.old) × (2 * from + 2 ≤ length q.old) }
    ensures { Put q.old q.new to (get_or q.old (2 * from + 1) 0) (get_or q.old (2 * from) 0) }
{
    let entry = entry_at(q, from);
    put(q, to, entry);
}

// The child of entry i with the lesser key. It has one.
pub(crate) fn lesser_child(q: &[u32], len: usize, i: usize) -> usize
    requires { (2 * len ≤ length q.now) × (2 * i + 1 < len) }
    ensures { LeastChild q.now len i result }
{
    let left = 2 * i + 1;
    let right = 2 * i + 2;
    if right < len {
        let a = key_at(q, left);
        let b = key_at(q, right);
        if b < a { right } else { left }
    } else {
        left
    }
}

// Fills the hole with an entry: children with lesser keys move up, and the entry is stored once, in its final place. Returns how many entries it
// stored: one for each level that the entry sank, and the entry.
fn sink(q: &mut [u32], len: usize, hole: usize, entry: Entry) -> usize
    requires { CanSink q.old len hole (entry_key entry) }
    ensures filled { Filled q.old q.new len hole (entry_key entry) }
    ensures sank { Sank q.old q.new len hole (entry_key entry) result }
{
    let left = 2 * hole + 1;
    if left < len {
        let child = lesser_child(q, len, hole);
        let k = key_at(q, child);
        if k < entry.key() {
            copy(q, child, hole);
            sink(q, len, child, entry) + 1
        } else {
            put(q, hole, entry);
            1
        }
    } else {
        put(q, hole, entry);
        1
    }
}

// x if a is the lesser key, y if b is. The back end makes a conditional move of it, not a branch.
fn choose<T: Copy>(a: u64, b: u64, x: T, y: T) -> T
    ensures { Chosen a b x y result }
{
    if b < a { y } else { x }
}

// Fills the hole as `sink` does, given the keys a and b of its two children and the lesser of both. It reads the keys of all four grandchildren before
// it knows which two of them come next, so that the waits for memory of two levels overlap: as it compares them too, the back end can't put off a load
// until then. It counts as `sink` does.
fn sink_ahead(
    q: &mut [u32],
    len: usize,
    hole: usize,
    a: u64,
    b: u64,
    least: u64,
    entry: Entry,
) -> usize
    requires can_sink { CanSink q.old len hole (entry_key entry) }
    requires children { Children q.old len hole a b }
    requires chosen { Chosen a b a b least }
    ensures filled { Filled q.old q.new len hole (entry_key entry) }
    ensures sank { Sank q.old q.new len hole (entry_key entry) result }
{
    let below = 4 * hole + 3;
    if below + 3 < len {
        let c = key_at(q, below);
        let d = key_at(q, below + 1);
        let e = key_at(q, below + 2);
        let f = key_at(q, below + 3);
        if least < entry.key() {
            let child = choose(a, b, 2 * hole + 1, 2 * hole + 2);
            copy(q, child, hole);
            let next_a = choose(a, b, c, e);
            let next_b = choose(a, b, d, f);
            let under_left = choose(c, d, c, d);
            let under_right = choose(e, f, e, f);
            let next = choose(a, b, under_left, under_right);
            sink_ahead(q, len, child, next_a, next_b, next, entry) + 1
        } else {
            put(q, hole, entry);
            1
        }
    } else {
        sink(q, len, hole, entry)
    }
}

// From how many entries on reading ahead pays: fewer stand in the caches next to the processor.
const AHEAD_FROM: usize = 16384;

// Fills the hole that the first entry leaves, and returns how many entries it stored.
fn sink_first(q: &mut [u32], len: usize, entry: Entry) -> usize
    requires { CanSink q.old len 0 (entry_key entry) }
    ensures filled { Filled q.old q.new len 0 (entry_key entry) }
    ensures sank { Sank q.old q.new len 0 (entry_key entry) result }
{
    if AHEAD_FROM <= len {
        let a = key_at(q, 1);
        let b = key_at(q, 2);
        let least = choose(a, b, a, b);
        sink_ahead(q, len, 0, a, b, least, entry)
    } else {
        sink(q, len, 0, entry)
    }
}

// Fills the hole at `start` with an entry: parents with greater keys move down, and the entry is stored once, in its final place.
fn rise(q: &mut [u32], len: usize, start: usize, entry: Entry)
    requires { CanRise q.old len start (entry_key entry) }
    ensures { Filled q.old q.new len start (entry_key entry) }
{
    let key = entry.key();
    let mut hole = start;
    while 0 < hole {
        let parent = (hole - 1) / 2;
        let k = key_at(q, parent);
        if k <= key {
            put(q, hole, entry);
            return;
        }
        copy(q, parent, hole);
        hole = parent;
    }
    put(q, hole, entry);
}

// Adds an entry to a queue of `len` entries.
pub fn push(q: &mut [u32], len: usize, distance: u32, tag: u32)
    requires queue { Queue q.old len }
    requires len_in_bounds { 2 * len + 2 ≤ length q.old }
    ensures { Pushed q.old q.new len (key_of distance tag) }
{
    rise(q, len + 1, len, Entry { distance, tag });
}

// Takes an entry of the least distance, and of the smallest node among equal distances (Ask 4), out of a queue of `len` entries.
pub fn pop(q: &mut [u32], len: usize) -> Entry
    requires queue { Queue q.old len }
    requires len_nonzero { 0 < len }
    ensures { Popped q.old q.new len (key_of result.distance result.tag) }
{
    let first = entry_at(q, 0);
    let last = entry_at(q, len - 1);
    put(q, len - 1, ZERO);
    if 1 < len {
        sink_first(q, len - 1, last);
    }
    first
}

// Adds an entry to a queue of `len` entries that starts at the word `at` of a longer slice. (distance and tag, no Entry: callers make the tag on the spot.)
pub fn push_at(s: &mut [u32], at: usize, len: usize, distance: u32, tag: u32)
    requires queue { Queue (drop at s.old) len }
    requires len_in_bounds { at + (2 * len + 2) ≤ length s.old }
    ensures { PushedAt s.old s.new at len (key_of distance tag) }
{
    push(&mut s[at..], len, distance, tag);
}

// The same of a queue that starts at the word `at` of a longer slice.
pub fn pop_at(s: &mut [u32], at: usize, len: usize) -> Entry
    requires queue { Queue (drop at s.old) len }
    requires len_nonzero { 0 < len }
    ensures { PoppedAt s.old s.new at len (key_of result.distance result.tag) }
{
    pop(&mut s[at..], len)
}

// The least distance that waits in the same.
pub fn least_at(s: &[u32], at: usize, len: usize) -> u32
    requires queue { Queue (drop at s.now) len }
    requires len_nonzero { 0 < len }
    ensures { LeastDistance (drop at s.now) len result }
{
    s[at + 1]
}
