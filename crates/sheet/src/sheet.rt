// The sheet: document 02, Ask 1: 'A sheet call writes, for each node, the length of the list of a site there, 0 without a site'.
ghost use Rattle.std.specs.Prelude.{◌≡◌};
ghost use Rattle.sheet.specs.Sheet.{CanEnter, EntryLeft, CanWriteAll, EntriesLeft, CanSheet, SheetLeft};

use crate::{list, sources};
use expansion::distances;
use network::Network;
use network::points::lockers_at;

// The entry of a node: the length of the list of a site there, 0 without a site.
fn entry_of(g: &Network<'_>, households: &[u8], sites: &[u8], s: &mut [u32], node: u32) -> u32
    requires { CanEnter g.now sites.now s.old node }
    ensures { EntryLeft g.now households.now sites.now s.old s.new node result }
{
    let there = lockers_at(sites, node);
    if there == 0 {
        return 0;
    }
    list::list_length(g, households, s, node)
}

// Writes the entry of each node.
fn write_entries(
    g: &Network<'_>,
    households: &[u8],
    sites: &[u8],
    s: &mut [u32],
    answers: &mut [u32],
)
    requires { CanWriteAll g.now sites.now s.old answers.old }
    ensures { EntriesLeft g.now households.now sites.now s.old s.new answers.old answers.new }
{
    let n = g.nodes();
    for at in 0..n {
        answers[at] = entry_of(g, households, sites, s, at as u32);
    }
}

// The whole sheet. All words are 0 before and after.
pub fn sheet(g: &Network<'_>, households: &[u8], sites: &[u8], s: &mut [u32], answers: &mut [u32])
    requires { CanSheet g.now s.old answers.old }
    ensures { SheetLeft g.now households.now sites.now s.old s.new answers.old answers.new }
{
    let n = g.nodes();
    let waiting = sources::start_all(sites, s, n);
    distances::settle_waiting(g, s, 0, waiting);
    write_entries(g, households, sites, s, answers);
    s.fill(0);
}
