// Looking at a node: the lockers that are nearer to it than its label, and whether the site lists them. What eager's expansion and the one from a route do at
// each node that they come to (source 000, Fig. 4; document 02, Ask 7).
ghost use Rattle.searches.specs.Flags.{site_lists, CanVerifyOnce, VerifiedOnce, CanVerifyAll, VerifiedAll, CanLook, LookedAt};

use expansion::verify::Site;
use expansion::{nearest, verify};
use network::Network;

// Verifies a point, where it was not verified before and is not on the route, and flags it where it is listed.
fn verify_once(g: &Network<'_>, points: &[u8], f: &mut [u32], p: u32, site: Site, k: usize)
    requires { CanVerifyOnce g.now points.now site k f.old p }
    ensures { VerifiedOnce g.now (site_lists g.now points.now f.old site k) f.old f.new p }
{
    let n = g.nodes();
    let at = p as usize;
    if f[at] != 0 {
        return;
    }
    f[at] = 1;
    if verify::verify(g, points, f, 4 * n, p, site, k) {
        f[n + at] = 1;
    }
}

// Verifies the points of the found nodes.
fn verify_found(g: &Network<'_>, points: &[u8], f: &mut [u32], found: usize, site: Site, k: usize)
    requires { CanVerifyAll g.now points.now site k f.old found }
    ensures { VerifiedAll g.now (site_lists g.now points.now f.old site k) f.old f.new found }
{
    let a = 3 * g.nodes();
    // By place: `verify_once` writes to other words of f meanwhile.
    for i in 0..found {
        let p = f[a + i];
        verify_once(g, points, f, p, site, k);
    }
}

// Finds the nodes with the k nearest lockers that are nearer to a node than its label, and verifies them. Returns how many lockers, cut at k.
pub fn look(
    g: &Network<'_>,
    points: &[u8],
    f: &mut [u32],
    node: u32,
    label: u32,
    site: Site,
    k: usize,
) -> usize
    requires { CanLook g.now points.now site k f.old node }
    ensures { LookedAt g.now points.now (site_lists g.now points.now f.old site k) k f.old f.new node label result }
{
    let n = g.nodes();
    let a = 3 * n;
    let near = nearest::nodes(g, points, &mut f[a..], n, node, label, k);
    let found = near.found;
    verify_found(g, points, f, found, site, k);
    let e = a + found;
    f[a..e].fill(0);
    near.tally
}
