// The expansion of everything: document 01, 'Distances from a node'.
ghost use Rattle.std.specs.Prelude.{◌≡◌, ◌+◌, ◌-◌, ◌≤◌, ◌<◌, length, get_or};
ghost use Rattle.network.specs.Count.{tabulate};
ghost use Rattle.network.specs.Answers.{answered};
ghost use Rattle.expansion.specs.Expand.{CanExpand, SettledAll, CanSettleFrom, SettledFrom, word_distance};
ghost use Rattle.expansion.specs.Distances.{DistancesLeft};

use crate::{labels, step};
use network::Network;

// Settles every node that those who wait can reach, each with the distance of the nearest. Returns how many.
pub fn settle_waiting(g: &Network<'_>, s: &mut [u32], b: usize, waiting: usize) -> usize
    requires { CanSettleFrom g.now s.old b waiting }
    ensures { SettledFrom g.now s.old s.new b result }
{
    let n = g.nodes();
    let mut settled = 0;
    let mut len = waiting;
    while let Some(taken) = step::next(s, b, n, len) {
        step::settle(s, b, n, settled, taken.node, taken.label);
        settled += 1;
        len = step::open(g, s, b, taken.left, taken.node, taken.label);
    }
    settled
}

// Settles every node that can be reached from the source, each with its distance. Returns how many.
fn settle_all(g: &Network<'_>, s: &mut [u32], b: usize, source: u32) -> usize
    requires { CanExpand g.now s.old b source }
    ensures { SettledAll g.now s.old s.new b source result }
{
    let n = g.nodes();
    step::start(s, b, n, source);
    settle_waiting(g, s, b, 1)
}

// Writes the distances that n seats stand for.
fn write_distances(words: &[u32], answers: &mut [u32], n: usize)
    requires { (n ≤ length words.now) × (n ≤ length answers.old) }
    ensures { answers.new ≡ answered (tabulate (λ v. word_distance n (get_or words.now v 0)) n) answers.old }
{
    for v in 0..n {
        answers[v] = labels::distance_of(n, words[v]).value;
    }
}

// The distances from a node. The area is blank before and after.
pub fn distances(g: &Network<'_>, s: &mut [u32], answers: &mut [u32], source: u32)
    requires can_expand { CanExpand g.now s.old 0 source }
    requires starts_in_bounds { length g.now.starts ≤ length answers.old + 1 }
    ensures { DistancesLeft g.now source s.old s.new answers.old answers.new }
{
    let n = g.nodes();
    let settled = settle_all(g, s, 0, source);
    write_distances(s, answers, n);
    step::clear(s, 0, n, settled, 0);
}
