// Lazy: source 000, Fig. 7. An expansion from the site that verifies each point that it comes to. A verification adds its point's lockers to the count
// of each node to which the point is strictly nearer than the site; the expansion stops behind a node with a count of k. Document 01, 'What a site
// receives'. s, n and b stay parameters of their own, as in expansion's step.rt.
ghost use Rattle.std.specs.Prelude.{◌≡◌, ◌+◌, ◌≤◌, ◌<◌, leb, length, get_or};
ghost use Rattle.expansion.specs.Area.{queue_base};
ghost use Rattle.searches.specs.Eager.{CanSearch, HasPlaces};
ghost use Rattle.lazy_searches.specs.Lazy.{visit_base, is_less, CanCount, CountedNode, CountedAll, CanDiscover, Discovered, CanExploreLazy, LazyExplored, SearchLeft};

use expansion::step::Taken;
use expansion::verify::Site;
use expansion::{labels, step, verify};
use network::Network;
use network::points::lockers_at;
use searches::flags;

// Whether a node has a count of k.
fn is_closed(s: &[u32], node: u32, k: usize) -> bool
    requires { node < length s.now }
    ensures { result ≡ leb k (get_or s.now node 0) }
{
    k <= s[node as usize] as usize
}

// Whether a verified point is strictly nearer to a node than the site, by the labels of the node: `near` in the verification, `far` in the search, which
// has come to the label.
fn is_nearer(near: u32, far: u32, label: u32) -> bool
    ensures { result ≡ is_less near far label }
{
    near < far && near < label
}

// Adds so many lockers to the count of a node that a verification has settled, where its point is strictly nearer to the node than the site.
fn count_node(s: &mut [u32], n: usize, b: usize, node: u32, label: u32, lockers: u32)
    requires { (queue_base n (visit_base n) ≤ b) × (b + n ≤ length s.old) × (node < n) × (get_or s.old node 0 + lockers < 4294967296) × (n ≤ 65535) }
    ensures { CountedNode n s.old s.new b label lockers node }
{
    let near = labels::label_of(s, 2 * n, n, node);
    let far = labels::label_of(s, b, n, node);
    if is_nearer(near, far, label) {
        s[node as usize] += lockers;
    }
}

// The same of every node that a verification has settled.
fn count_visited(s: &mut [u32], n: usize, b: usize, settled: usize, label: u32, lockers: u32)
    requires { CanCount n s.old b settled lockers }
    ensures { CountedAll n s.old s.new b settled label lockers }
{
    // by index: the loop writes other words of the slice that it reads
    for i in 0..settled {
        let node = labels::settled_node(s, 2 * n, n, i);
        count_node(s, n, b, node, label, lockers);
    }
}

// Verifies a node that is a point: flags it where it is listed, and adds its lockers to the counts of the nodes that the verification has settled.
fn discover(
    g: &Network<'_>,
    points: &[u8],
    s: &mut [u32],
    b: usize,
    node: u32,
    label: u32,
    q: u32,
    k: usize,
)
    requires { CanDiscover g.now points.now q k s.old b node }
    ensures { Discovered g.now points.now q k s.old s.new b node label }
{
    let n = g.nodes();
    let lockers = lockers_at(points, node);
    if lockers == 0 {
        return;
    }
    let a = 2 * n;
    let v = verify::visit(g, points, &mut s[..b], a, node, Site::One { q }, k);
    count_visited(s, n, b, v.settled, label, lockers as u32);
    step::clear(&mut s[..b], a, n, v.settled, v.len);
    if v.yes {
        s[n + node as usize] = 1;
    }
}

// Settles nodes by rising distance from the site, and verifies the points among them. An entry is dropped where its node is closed, or the node that put
// it in; the arcs of a node that is not closed are followed.
fn explore(g: &Network<'_>, points: &[u8], s: &mut [u32], b: usize, q: u32, k: usize)
    requires { CanExploreLazy g.now points.now s.old b q }
    ensures { LazyExplored g.now points.now q k s.old s.new }
{
    let n = g.nodes();
    step::start(s, b, n, q);
    let mut settled = 0;
    let mut len = 1;
    while let Some(
        Taken {
            label,
            node,
            parent,
            left,
        },
    ) = step::next(s, b, n, len)
    {
        len = left;
        if is_closed(s, node, k) {
            continue;
        }
        if is_closed(s, parent, k) {
            continue;
        }
        discover(g, points, s, b, node, label, q, k);
        step::settle(s, b, n, settled, node, label);
        settled += 1;
        if is_closed(s, node, k) {
            continue;
        }
        len = step::open(g, s, b, left, node, label);
    }
}

// The points that list a site. All words are 0 before and after. Returns how many.
pub fn lazy(
    g: &Network<'_>,
    points: &[u8],
    s: &mut [u32],
    answers: &mut [u32],
    q: u32,
    k: usize,
) -> usize
    requires can_search { CanSearch g.now points.now s.old q k }
    requires has_places { HasPlaces g.now answers.old }
    ensures { SearchLeft g.now points.now q k s.old s.new answers.old answers.new result }
{
    let n = g.nodes();
    let b = 6 * n;
    explore(g, points, s, b, q, k);
    let size = flags::write_found(s, answers, n, n);
    s.fill(0);
    size
}
