// The expansion that looks for lockers: document 01, Nearest. The lent words are: found nodes, each once | the area of the expansion, from word b on.
// They are parts of one lent slice, found and cut by number: memory is fixed and the caller's (a rule of the project).
ghost use Rattle.std.specs.Prelude.{◌≡◌, ◌+◌, ◌*◌, ◌≤◌, ◌<◌, min, length};
ghost use Rattle.network.specs.Points.{lockers};
ghost use Rattle.expansion.specs.Found.{CanFind, Noted, FindLeft, NodesLeft, Repeated, CanWrite, WrittenOut, NearestLeft};

use crate::{labels, step};
use network::Network;
use network::points::lockers_at;

// What is found: how many nodes, and how many lockers on them, cut at k.
#[derive(Clone, Copy, Debug, PartialEq, Eq)]
pub struct Near {
    pub found: usize,
    pub tally: usize,
}

// How far a search is, and where it ends: what is found, how many nodes are settled, and how many wait.
#[derive(Clone, Copy, Debug, PartialEq, Eq)]
struct Search {
    found: usize,
    tally: usize,
    settled: usize,
    len: usize,
}

// Adds a settled node to the found nodes, where it has a locker. Returns how many there are then.
fn note(points: &[u8], s: &mut [u32], found: usize, node: u32) -> usize
    requires { found < length s.old }
    ensures { Noted points.now s.old s.new found node result }
{
    let all = lockers_at(points, node);
    if all == 0 {
        return found;
    }
    s[found] = node;
    found + 1
}

// Adds the lockers of a node to a tally, up to k.
fn add(points: &[u8], tally: usize, node: u32, k: usize) -> usize
    requires { tally < 4294967296 }
    ensures { (result ≡ min k (tally + lockers points.now node)) × (result ≤ tally + 255) }
{
    let all = lockers_at(points, node);
    k.min(tally + all)
}

// Settles nodes by rising distance while it is below e and fewer than k lockers are found.
fn find(
    g: &Network<'_>,
    points: &[u8],
    s: &mut [u32],
    b: usize,
    node: u32,
    e: u32,
    k: usize,
) -> Search
    requires { CanFind g.now points.now s.old b k node }
    ensures { FindLeft g.now points.now node e k s.old s.new b result }
{
    let n = g.nodes();
    step::start(s, b, n, node);
    let mut search = Search {
        found: 0,
        tally: 0,
        settled: 0,
        len: 1,
    };
    while search.tally < k {
        let Some(taken) = step::next(s, b, n, search.len) else {
            return Search { len: 0, ..search };
        };
        if e <= taken.label {
            return Search {
                len: taken.left,
                ..search
            };
        }
        step::settle(s, b, n, search.settled, taken.node, taken.label);
        search.settled += 1;
        search.len = step::open(g, s, b, taken.left, taken.node, taken.label);
        search.found = note(points, s, search.found, taken.node);
        search.tally = add(points, search.tally, taken.node, k);
    }
    search
}

// The nodes with the k nearest lockers that are nearer to a node than e, by distance and then node, in the first words. All words are 0 before, and
// all but these after.
pub fn nodes(
    g: &Network<'_>,
    points: &[u8],
    s: &mut [u32],
    b: usize,
    node: u32,
    e: u32,
    k: usize,
) -> Near
    requires { CanFind g.now points.now s.old b k node }
    ensures { NodesLeft g.now points.now node e k s.old s.new b result }
{
    let n = g.nodes();
    let search = find(g, points, s, b, node, e, k);
    step::clear(s, b, n, search.settled, search.len);
    Near {
        found: search.found,
        tally: search.tally,
    }
}

// Writes a found node and its distance, once for each of its lockers, up to k places. Returns how many places are filled then.
fn repeat(points: &[u8], s: &mut [u32], k: usize, from: usize, node: u32, label: u32) -> usize
    requires { (from < k) × (3 * k ≤ length s.old) }
    ensures { Repeated points.now s.old s.new k from node label result }
{
    let all = lockers_at(points, node);
    let end = k.min(from + all);
    s[k + from..k + end].fill(node);
    s[2 * k + from..2 * k + end].fill(label);
    end
}

// Writes the found nodes and their labels out, up to k places.
fn write_out(points: &[u8], s: &mut [u32], n: usize, k: usize, found: usize)
    requires { CanWrite points.now s.old n k found }
    ensures { WrittenOut points.now s.old s.new n k found }
{
    let b = 3 * k;
    let mut at = 0;
    // By place, not over s[..found]: `repeat` writes to other words of s meanwhile.
    for i in 0..found {
        let v = s[i];
        let label = labels::label_of(s, b, n, v);
        at = repeat(points, s, k, at, v, label);
    }
}

// The lockers nearer to a node than e, by distance and then node, each node once for each of its lockers, cut after the first k: their ids from word k
// on, their distances from word 2 k on. Returns how many. All words are 0 before, and all but these after.
pub fn nearest(g: &Network<'_>, points: &[u8], s: &mut [u32], node: u32, e: u32, k: usize) -> usize
    requires { CanFind g.now points.now s.old (3 * k) k node }
    ensures { NearestLeft g.now points.now node e k s.old s.new result }
{
    let n = g.nodes();
    let b = 3 * k;
    let search = find(g, points, s, b, node, e, k);
    write_out(points, s, n, k, search.found);
    step::clear(s, b, n, search.settled, search.len);
    s[..k].fill(0);
    search.tally
}
