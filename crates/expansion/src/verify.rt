// Verify: document 01, 'What a site receives': whether fewer than k other lockers are strictly nearer to p than the site, and it can be reached. 'Verify of
// the point on q says no' (Ask 6). The site is a node, or a route: then its distance is that of the nearest of its nodes (Ask 7).
ghost use Rattle.std.specs.Prelude.{◌≡◌, ◌+◌, ◌≤◌, ◌<◌};
ghost use Rattle.network.specs.Points.{others_at};
ghost use Rattle.expansion.specs.Visited.{CanReadSite, is_site, CanVisit, CameTo, Visited, VerifyLeft};

use crate::step;
use network::Network;
use network::points::lockers_at;

// What stands in the word of a node of the route, among the first n words: a number, since the lent scratch holds numbers alone (fixed memory).
pub const STOP: u32 = 2;

// The site: a node, or the nodes of a route.
#[derive(Clone, Copy, Debug, PartialEq, Eq)]
pub enum Site {
    One { q: u32 },
    Stops,
}

// Whether the rule holds, and what stands in the area: how many nodes are settled, and how many entries wait. (No Option: both counts stand
// whatever the answer is.)
#[derive(Clone, Copy, Debug, PartialEq, Eq)]
pub struct VisitEnd {
    pub yes: bool,
    pub settled: usize,
    pub len: usize,
}

// The label that the expansion has come to, and the other lockers that it has settled: below that label, and at it.
#[derive(Clone, Copy, Debug, Default, PartialEq, Eq)]
struct Tally {
    label: u32,
    below: usize,
    level: usize,
}

// The tally when the expansion comes to a label.
fn come_to(t: Tally, label: u32) -> Tally
    requires { t.below + t.level < 4294967296 }
    ensures { CameTo t label result }
{
    if label <= t.label {
        return t;
    }
    Tally {
        label,
        below: t.below + t.level,
        level: 0,
    }
}

// How many lockers a node has besides the one at p.
fn counts(points: &[u8], p: u32, node: u32) -> usize
    ensures { (result ≡ others_at points.now p node) × (result ≤ 255) }
{
    let all = lockers_at(points, node);
    if node == p {
        all.saturating_sub(1)
    } else {
        all
    }
}

// Whether a node is the site, or one of its nodes.
fn is_site(s: &[u32], site: Site, node: u32) -> bool
    requires { CanReadSite s.now site node }
    ensures { result ≡ is_site s.now site node }
{
    match site {
        Site::One { q } => node == q,
        Site::Stops => s[node as usize] == STOP,
    }
}

// Expands from p until it is known whether fewer than k other lockers are strictly nearer to p than the site, and leaves what it settled. From the site
// itself the first node ends it, at label 0.
pub fn visit(
    g: &Network<'_>,
    points: &[u8],
    s: &mut [u32],
    b: usize,
    p: u32,
    site: Site,
    k: usize,
) -> VisitEnd
    requires { CanVisit g.now points.now s.old b p site }
    ensures { Visited g.now points.now p site k s.old s.new b result }
{
    let n = g.nodes();
    step::start(s, b, n, p);
    let mut tally = Tally::default();
    let mut settled = 0;
    let mut len = 1;
    while let Some(taken) = step::next(s, b, n, len) {
        tally = come_to(tally, taken.label);
        let here = is_site(s, site, taken.node);
        if k <= tally.below || here {
            return VisitEnd {
                yes: 0 < taken.label && tally.below < k,
                settled,
                len: taken.left,
            };
        }
        tally.level += counts(points, p, taken.node);
        step::settle(s, b, n, settled, taken.node, taken.label);
        settled += 1;
        len = step::open(g, s, b, taken.left, taken.node, taken.label);
    }
    VisitEnd {
        yes: false,
        settled,
        len: 0,
    }
}

// The same, with the area blank before and after.
pub fn verify(
    g: &Network<'_>,
    points: &[u8],
    s: &mut [u32],
    b: usize,
    p: u32,
    site: Site,
    k: usize,
) -> bool
    requires { CanVisit g.now points.now s.old b p site }
    ensures { VerifyLeft g.now points.now p site k s.old s.new b result }
{
    let n = g.nodes();
    let v = visit(g, points, s, b, p, site, k);
    step::clear(s, b, n, v.settled, v.len);
    v.yes
}
