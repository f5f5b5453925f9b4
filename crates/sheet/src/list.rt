// A site's list for one nearest, along the arcs that keep to the distances of the nearest sites: a node is on it exactly if the site is as near to it as
// any. The first n words are the seats of these distances. A node's mark, n words behind the area, is the last site that took it in, plus 1, so nothing is
// cleared between two lists; behind the marks stand the members of the present list, in the order in which they came.
ghost use Rattle.std.specs.Prelude.{◌≡◌, ◌≤◌, length};
ghost use Rattle.network.specs.Network.{neighbours_of};
ghost use Rattle.network.specs.Points.{lockers};
ghost use Rattle.sheet.specs.List.{CanTakeMember, MemberTaken, CanFollowMember, MemberFollowed, CanList, ListLeft};

use expansion::labels;
use network::Network;
use network::points::lockers_at;

// How far a list has come: its nodes, and the households on them.
#[derive(Clone, Copy, Debug, PartialEq, Eq)]
pub struct Members {
    pub size: usize,
    pub sum: u32,
}

// The households at a node, each of which counts (Ask 8).
fn households_at(households: &[u8], node: u32) -> u32
    ensures { (result ≡ lockers households.now node) × (result ≤ 255) }
{
    lockers_at(households, node) as u32
}

// Takes a node in, unless the list has it.
fn take_in(
    s: &mut [u32],
    n: usize,
    households: &[u8],
    q: u32,
    node: u32,
    members: Members,
) -> Members
    requires { CanTakeMember n s.old households.now q node members.size members.sum }
    ensures { MemberTaken n s.old s.new households.now q node members.size result }
{
    let at = 4 * n + node as usize;
    if s[at] == q + 1 {
        return members;
    }
    s[at] = q + 1;
    s[5 * n + members.size] = node;
    Members {
        size: members.size + 1,
        sum: members.sum + households_at(households, node),
    }
}

// Takes in the nodes behind a member that are as much farther from the nearest site as the arc is long.
fn follow(
    g: &Network<'_>,
    households: &[u8],
    s: &mut [u32],
    q: u32,
    node: u32,
    members: Members,
) -> Members
    requires { CanFollowMember g.now s.old households.now q node members.size members.sum }
    ensures { MemberFollowed g.now s.old s.new households.now q node members.size result (length (neighbours_of g.now node)) }
{
    let n = g.nodes();
    let ahead = g.neighbours_of(node as usize);
    let weighed = g.weights_of(node as usize);
    let near = labels::label_of(s, 0, n, node);
    let mut members = members;
    for (j, &to) in ahead.iter().enumerate() {
        if labels::label_of(s, 0, n, to) == near + weighed[j] {
            members = take_in(s, n, households, q, to, members);
        }
    }
    members
}

// How many households a site's list has: it begins with the site's own node, and each member is followed.
pub fn list_length(g: &Network<'_>, households: &[u8], s: &mut [u32], q: u32) -> u32
    requires { CanList g.now s.old q }
    ensures { ListLeft g.now s.old s.new households.now q result }
{
    let n = g.nodes();
    let mut members = take_in(s, n, households, q, q, Members { size: 0, sum: 0 });
    let mut i = 0;
    // No `for`: the list grows while it is read, so no range is known before.
    while i < members.size {
        let node = s[5 * n + i];
        i += 1;
        members = follow(g, households, s, q, node, members);
    }
    members.sum
}
