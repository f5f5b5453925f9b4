// Eager: source 000, Fig. 4. An expansion from the site that stops behind a node with k points strictly nearer to it than the site, and verifies
// each point that it finds once. Document 01, 'What a site receives'. It lists the nodes that it counts, by distance and then by node (Ask 4). 'A point on q
// isn't listed' (Ask 6): verify says no of it.
ghost use Rattle.expansion.specs.Area.{Wiped};
ghost use Rattle.searches.specs.Eager.{CanSearch, HasPlaces, CanExploreEager, EagerExplored, CanWipe, CanFinish, FinishLeft, LimitedLeft, VisitsLeft};

use crate::{flags, look};
use expansion::verify::Site;
use expansion::{step, words};
use network::Network;

// How many answers there are, and how many nodes are counted. (conditions' Listed is a call's answer; this crate stands below the calls.)
#[derive(Clone, Copy, Debug, PartialEq, Eq)]
pub struct LimitedList {
    pub size: usize,
    pub count: u32,
}

// Where the expansion ends: the settled nodes, the entries that wait, and the nodes counted, where they are within the limit.
#[derive(Clone, Copy, Debug, PartialEq, Eq)]
struct End {
    settled: usize,
    len: usize,
    count: Option<u32>,
}

// Settles nodes by rising distance from the site, and looks at each. Where fewer than k lockers are found, it counts the node against the limit,
// follows its arcs, and keeps it as the next of the visits.
fn explore(
    g: &Network<'_>,
    points: &[u8],
    s: &mut [u32],
    b: usize,
    q: u32,
    k: usize,
    limit: u32,
) -> End
    requires { CanExploreEager g.now points.now s.old b q k }
    ensures { EagerExplored g.now points.now q k limit s.old s.new b result }
{
    let n = g.nodes();
    let a = 2 * n;
    step::start(s, b, n, q);
    let mut settled = 0;
    let mut len = 1;
    let mut count = 0;
    while let Some(taken) = step::next(s, b, n, len) {
        let f = &mut s[..b];
        let site = Site::One { q };
        let tally = look::look(g, points, f, taken.node, taken.label, site, k);
        if tally < k && count == limit {
            return End {
                settled,
                len: taken.left,
                count: None,
            };
        }
        step::settle(s, b, n, settled, taken.node, taken.label);
        settled += 1;
        len = taken.left;
        if k <= tally {
            continue;
        }
        len = step::open(g, s, b, taken.left, taken.node, taken.label);
        s[a + count as usize] = taken.node;
        count += 1;
    }
    End {
        settled,
        len: 0,
        count: Some(count),
    }
}

// Clears the words before the found nodes, and the outer area.
pub fn wipe(s: &mut [u32], n: usize, b: usize, settled: usize, len: usize)
    requires { CanWipe n s.old b settled len }
    ensures { Wiped s.old s.new 0 }
{
    step::clear(s, b, n, settled, len);
    let e = 3 * n;
    s[..e].fill(0);
}

// Writes the list, unless the count would exceed the limit, and clears the words. A match and no `map`: the
// step writes the list, and a closure would do so beside the value that it makes.
fn finish(s: &mut [u32], answers: &mut [u32], n: usize, end: End) -> Option<LimitedList>
    requires { CanFinish n s.old answers.old end }
    ensures { FinishLeft n s.old s.new answers.old answers.new end result }
{
    let counted = match end.count {
        Some(count) => {
            let size = flags::write_found(s, answers, n, n);
            Some(LimitedList { size, count })
        }
        None => None,
    };
    wipe(s, n, 8 * n, end.settled, end.len);
    counted
}

// The points that list a site, how many nodes were expanded, and these nodes, by distance and then by node; refused where they are more than the limit.
// The visits are kept in words until no refusal can come any more. All words are 0 before and after.
pub fn eager(
    g: &Network<'_>,
    points: &[u8],
    s: &mut [u32],
    answers: &mut [u32],
    visits: &mut [u32],
    q: u32,
    k: usize,
    limit: u32,
) -> Option<LimitedList>
    requires can_search { CanSearch g.now points.now s.old q k }
    requires has_places { HasPlaces g.now answers.old }
    requires has_places_2 { HasPlaces g.now visits.old }
    ensures limited_left { LimitedLeft g.now points.now q k limit s.old s.new answers.old answers.new result }
    ensures visits_left { VisitsLeft g.now points.now q k visits.old visits.new result }
{
    let n = g.nodes();
    let b = 8 * n;
    let end = explore(g, points, s, b, q, k, limit);
    if let Some(count) = end.count {
        words::copy(s, 2 * n, count as usize, visits);
    }
    finish(s, answers, n, end)
}

// The same without the visits, for a caller that wants none. No Option of the visits in one function: every clause on them would be by cases.
pub fn without_visits(
    g: &Network<'_>,
    points: &[u8],
    s: &mut [u32],
    answers: &mut [u32],
    q: u32,
    k: usize,
    limit: u32,
) -> Option<LimitedList>
    requires can_search { CanSearch g.now points.now s.old q k }
    requires has_places { HasPlaces g.now answers.old }
    ensures { LimitedLeft g.now points.now q k limit s.old s.new answers.old answers.new result }
{
    let n = g.nodes();
    let b = 8 * n;
    let end = explore(g, points, s, b, q, k, limit);
    finish(s, answers, n, end)
}
