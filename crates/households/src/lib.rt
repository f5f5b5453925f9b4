// The households that a site wins: document 02, Ask 1 (source 000, 5.1). An expansion from the site that stops behind a node with k sites strictly nearer
// to it; the households on the nodes that it goes on from are the list, and nothing is verified. The lent words are: found nodes n | the area of the inner
// expansions, 4 n | flags n | the area of the outer expansion, 4 n.
#![tactic(auto)]

ghost use Rattle.std.specs.Prelude.{◌≡◌, length};
ghost use Rattle.network.specs.Nearest.{nearest};
ghost use Rattle.households.specs.Winning.{CanCountSites, CanWin, Explored, WonLeft};
ghost use Rattle.searches.specs.Eager.{HasPlaces};

use expansion::{nearest, step};
use network::Network;
use network::points::lockers_at;
use searches::flags;

// How many sites are nearer to a node than its label, cut at k. The words are all 0 before and after.
fn look(g: &Network<'_>, sites: &[u8], f: &mut [u32], node: u32, label: u32, k: usize) -> usize
    requires { CanCountSites g.now sites.now f.old node }
    ensures { (f.new ≡ f.old) × (result ≡ length (nearest g.now sites.now node label k)) }
{
    let n = g.nodes();
    let near = nearest::nodes(g, sites, f, n, node, label, k);
    let found = near.found;
    f[..found].fill(0);
    near.tally
}

// Settles nodes by rising distance from the site, and looks at each. Where fewer than k sites are nearer, it follows the node's arcs, and flags it with its
// households. Returns how many nodes are settled.
fn explore(
    g: &Network<'_>,
    households: &[u8],
    sites: &[u8],
    s: &mut [u32],
    q: u32,
    k: usize,
) -> usize
    requires { CanWin g.now sites.now s.old q k }
    ensures { Explored g.now households.now sites.now q k s.old s.new result }
{
    let n = g.nodes();
    let f = 5 * n;
    let b = 6 * n;
    step::start(s, b, n, q);
    let mut settled = 0;
    let mut len = 1;
    while let Some(taken) = step::next(s, b, n, len) {
        let part = &mut s[..f];
        let tally = look(g, sites, part, taken.node, taken.label, k);
        step::settle(s, b, n, settled, taken.node, taken.label);
        settled += 1;
        len = taken.left;
        if k <= tally {
            continue;
        }
        len = step::open(g, s, b, taken.left, taken.node, taken.label);
        let at = f + taken.node as usize;
        s[at] = lockers_at(households, taken.node) as u32;
    }
    settled
}

// The households that a site wins, ascending by node. Returns how many nodes there are. All words are 0 before and after.
pub fn won(
    g: &Network<'_>,
    households: &[u8],
    sites: &[u8],
    s: &mut [u32],
    answers: &mut [u32],
    q: u32,
    k: usize,
) -> usize
    requires can_win { CanWin g.now sites.now s.old q k }
    requires has_places { HasPlaces g.now answers.old }
    ensures { WonLeft g.now households.now sites.now q k s.old s.new answers.old answers.new result }
{
    let n = g.nodes();
    let f = 5 * n;
    let b = 6 * n;
    let settled = explore(g, households, sites, s, q, k);
    let size = flags::write_found(s, answers, f, n);
    step::clear(s, b, n, settled, 0);
    s[..b].fill(0);
    size
}
