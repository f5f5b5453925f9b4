// The nodes with a site, as the sources of one expansion.
ghost use Rattle.std.specs.Prelude.{◌≡◌};
ghost use Rattle.sheet.specs.Sources.{CanStart, Started};

use expansion::{node_queue, tags};
use network::points::lockers_at;

// Puts in the first entries: each node with a site, at label 0. Returns how many there are.
pub fn start_all(sites: &[u8], s: &mut [u32], n: usize) -> usize
    requires { CanStart n s.old }
    ensures { Started n sites.now s.old s.new n result }
{
    let mut len = 0;
    for at in 0..n {
        let node = at as u32;
        if lockers_at(sites, node) != 0 {
            let tag = tags::tag_of(node, node);
            node_queue::push(s, 0, n, len, 0, tag);
            len += 1;
        }
    }
    len
}
