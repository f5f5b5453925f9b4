// The points that any node of a route receives, by one search: document 02, Ask 7 (source 000, 5.1). All nodes of the route are put in at label 0, and from
// there it is eager's search: an unbeaten node's label is the distance of the nearest of them. A node of the route has 2 for its verified flag, so that a verification ends
// at it and a point on it is never listed; the route is not copied. The lent words are eager's (searches, Eager); those of the visits stay 0.
#![tactic(auto)]

ghost use Rattle.searches.specs.Eager.{HasPlaces};
ghost use Rattle.routes.specs.Route.{CanStartRoute, RouteStarted, CanRoute, RouteExplored, RouteLeft};

use expansion::verify::{STOP, Site};
use expansion::{node_queue, step, tags};
use network::Network;
use searches::{eager, flags, look};

// Puts in the nodes of the route, each once, however often it stands there. Returns how many there are.
fn start(route: &[u32], s: &mut [u32], b: usize, n: usize) -> usize
    requires { CanStartRoute n route.now s.old b }
    ensures { RouteStarted n route.now s.old s.new b result }
{
    let mut len = 0;
    for &node in route {
        let at = node as usize;
        let mark = s[at];
        if mark == 0 {
            s[at] = STOP;
            let tag = tags::tag_of(node, node);
            node_queue::push(s, b, n, len, 0, tag);
            len += 1;
        }
    }
    len
}

// Settles nodes by rising distance from the route, and looks at each. Where fewer than k lockers are found, it follows the node's arcs. Returns how many nodes
// are settled.
fn explore(g: &Network<'_>, points: &[u8], route: &[u32], s: &mut [u32], k: usize) -> usize
    requires { CanRoute g.now points.now route.now s.old k }
    ensures { RouteExplored g.now points.now route.now k s.old s.new result }
{
    let n = g.nodes();
    let b = 8 * n;
    let mut settled = 0;
    let mut len = start(route, s, b, n);
    while let Some(taken) = step::next(s, b, n, len) {
        let f = &mut s[..b];
        let site = Site::Stops;
        let tally = look::look(g, points, f, taken.node, taken.label, site, k);
        step::settle(s, b, n, settled, taken.node, taken.label);
        settled += 1;
        len = taken.left;
        if k <= tally {
            continue;
        }
        len = step::open(g, s, b, taken.left, taken.node, taken.label);
    }
    settled
}

// The points that any node of the route receives, but for those on it, ascending by node. Returns how many. All words are 0 before and after.
pub fn touched(
    g: &Network<'_>,
    points: &[u8],
    route: &[u32],
    s: &mut [u32],
    answers: &mut [u32],
    k: usize,
) -> usize
    requires can_route { CanRoute g.now points.now route.now s.old k }
    requires has_places { HasPlaces g.now answers.old }
    ensures { RouteLeft g.now points.now route.now k s.old s.new answers.old answers.new result }
{
    let n = g.nodes();
    let b = 8 * n;
    let settled = explore(g, points, route, s, k);
    let size = flags::write_found(s, answers, n, n);
    eager::wipe(s, n, b, settled, 0);
    size
}
