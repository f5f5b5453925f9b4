// Lazy with extended pruning: source 000, Fig. 13. An expansion from the site that verifies each point that it comes to, beside a second expansion
// from the points verified so far. It stops behind a node with k of their lockers strictly nearer to it than the site. Document 01, 'What a site
// receives'. s, n and the areas' first words stay parameters of their own, as in expansion's step.rt.
ghost use Rattle.std.specs.Prelude.{◌≡◌, true, ◌+◌, ◌≤◌, ◌<◌, length};
ghost use Rattle.network.specs.Points.{marked};
ghost use Rattle.expansion.specs.declared.verify.Site.TheVariants.{One};
ghost use Rattle.expansion.specs.Visited.{CanVisit};
ghost use Rattle.lazy_searches.specs.Second.{second_base};
ghost use Rattle.lazy_searches.specs.Lazy.{SearchLeft};
ghost use Rattle.lazy_searches.specs.LazyEp.{CanExtend, CanSettle, SettledFound, TakenBack, CanDiscoverEp, PointVerified, DiscoveredEp};

use crate::second;
use expansion::step::Taken;
use expansion::verify::Site;
use expansion::{labels, step, verify};
use network::Network;
use network::distance::Distance;
use network::points::lockers_at;
use searches::flags;

// Whether an entry of node v at label l is taken back: k lockers are nearer to v than l, or nearer to the settled node u that put it in than u's own
// label.
fn taken_back(
    points: &[u8],
    s: &[u32],
    outer: usize,
    n: usize,
    k: usize,
    v: u32,
    l: u32,
    u: u32,
) -> bool
    requires { (second_base n k ≤ length s.now) × (outer + n ≤ length s.now) × (v < n) × (u < n) }
    ensures { result ≡ true → TakenBack points.now n s.now outer k v l u }
{
    if second::closed(points, s, n, k, v, l) {
        return true;
    }
    let label = labels::label_of(s, outer, n, u);
    if label == Distance::NONE {
        return false;
    }
    second::closed(points, s, n, k, u, label)
}

// Verifies point v, and flags it where it is listed.
fn verify_point(
    g: &Network<'_>,
    points: &[u8],
    f: &mut [u32],
    inner: usize,
    k: usize,
    v: u32,
    q: u32,
)
    requires can_visit { CanVisit g.now points.now f.old inner v (One q) }
    requires starts_len_bound { (length g.now.starts ≤ inner + 1) × (marked points.now v ≡ true) }
    ensures { PointVerified g.now points.now q k v f.old f.new }
{
    let site = Site::One { q };
    let yes = verify::verify(g, points, f, inner, v, site, k);
    if yes {
        f[v as usize] = 1;
    }
}

// Comes to node v: where it is a point, it is verified, and spreads from its own row. Returns the second queue's length then.
fn discover(
    g: &Network<'_>,
    points: &[u8],
    f: &mut [u32],
    inner: usize,
    k: usize,
    len: usize,
    v: u32,
    q: u32,
) -> usize
    requires { CanDiscoverEp g.now points.now f.old inner k len v q }
    ensures { DiscoveredEp g.now points.now q k v inner f.old f.new len result }
{
    if lockers_at(points, v) == 0 {
        return len;
    }
    verify_point(g, points, f, inner, k, v, q);
    second::admit(g, &mut f[..inner], k, len, v, v, 0)
}

// Settles nodes by rising distance from the site, and verifies the points among them.
fn settle_found(
    g: &Network<'_>,
    points: &[u8],
    s: &mut [u32],
    inner: usize,
    outer: usize,
    q: u32,
    k: usize,
)
    requires { CanSettle g.now points.now s.old inner outer q k }
    ensures { SettledFound g.now points.now q k s.old s.new }
{
    let n = g.nodes();
    step::start(s, outer, n, q);
    let mut settled = 0;
    let mut len = 1;
    let mut waiting = 0;
    while let Some(
        Taken {
            label,
            node,
            parent,
            left,
        },
    ) = step::next(s, outer, n, len)
    {
        len = left;
        waiting = second::advance(g, &mut s[..inner], k, waiting, label);
        if taken_back(points, s, outer, n, k, node, label, parent) {
            continue;
        }
        waiting = discover(g, points, &mut s[..outer], inner, k, waiting, node, q);
        step::settle(s, outer, n, settled, node, label);
        settled += 1;
        if second::closed(points, s, n, k, node, label) {
            continue;
        }
        len = step::open(g, s, outer, left, node, label);
    }
}

// The points that list a site, ascending, into the answers. Returns how many. All words are 0 before and after.
pub fn lazy_ep(
    g: &Network<'_>,
    points: &[u8],
    s: &mut [u32],
    answers: &mut [u32],
    q: u32,
    k: usize,
) -> usize
    requires { CanExtend g.now points.now s.old answers.old q k }
    ensures { SearchLeft g.now points.now q k s.old s.new answers.old answers.new result }
{
    let n = g.nodes();
    let area = 4 * n;
    let outer = s.len() - area;
    let inner = outer - area;
    settle_found(g, points, s, inner, outer, q, k);
    let size = flags::write_found(s, answers, 0, n);
    s.fill(0);
    size
}
