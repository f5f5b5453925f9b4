// The conditions 6 to 11 and 14, each with its own refusal; and the answers of the calls. Document 01, 'Numbers of refusal', and document 02, Ask 7. S is
// computed behind the tests of n, A and m, so that no product wraps.
#![tactic(auto)]

ghost use Rattle.std.specs.Prelude.{◌≡◌, List, ℕ, ◌+◌, ◌*◌, ◌≤◌, length};
ghost use Rattle.network.specs.Count.{any};
ghost use Rattle.network.specs.Network.{network};
ghost use Rattle.network.specs.Refusal.{number};
ghost use Rattle.network.specs.Routes.{has_road, bad_route};
ghost use Rattle.conditions.specs.Roads.{RisingPart, RisingParts};
ghost use Rattle.conditions.specs.Conditions.{bad_byte_at, points_number, node_number, nodes_number, table_number, k_number, table_k_number, short_number, full_number, unmarked_number, route_number};

use network::points::lockers_at;
use network::{Network, Refusal};

pub mod answers;
pub mod kind;

// Of 6: a byte above 15.
#[tactic(auto, using(crate::proofs::Bytes::byte_steps))]
fn bad_byte(points: &[u8]) -> bool
    ensures { result ≡ any (bad_byte_at points.now) (length points.now) }
{
    for &lockers in points {
        if 15 < lockers {
            return true;
        }
    }
    false
}

// 6: points has not n entries, or a byte above 15.
#[tactic(auto, unfolding(crate::specs::Conditions::points_number))]
pub fn check_points(n: usize, points: &[u8]) -> Result<(), Refusal>
    ensures { number result ≡ points_number n points.now }
{
    if points.len() != n || bad_byte(points) {
        return Err(Refusal::Points);
    }
    Ok(())
}

// 7: a node given is n or more.
#[tactic(auto, unfolding(crate::specs::Conditions::node_number))]
pub fn check_node(n: usize, node: u32) -> Result<(), Refusal>
    ensures { number result ≡ node_number n node }
{
    if n <= node as usize {
        return Err(Refusal::Node);
    }
    Ok(())
}

// 7 for each node of a list (Ask 7).
#[tactic(auto, using(crate::proofs::Along::nodes_steps))]
pub fn check_nodes(n: usize, route: &[u32]) -> Result<(), Refusal>
    ensures { number result ≡ nodes_number n route.now }
{
    for &node in route {
        check_node(n, node)?;
    }
    Ok(())
}

// 8: K is not 2 to 17, or a table array has not n × K entries.
#[tactic(auto, unfolding(crate::specs::Conditions::table_number))]
pub fn check_table(
    n: usize,
    places: u32,
    id_count: usize,
    distance_count: usize,
) -> Result<(), Refusal>
    requires { n ≤ 65535 }
    ensures { number result ≡ table_number n places id_count distance_count }
{
    if !(2..=17).contains(&places) {
        return Err(Refusal::Table);
    }
    let entries = n * places as usize;
    if id_count != entries || distance_count != entries {
        return Err(Refusal::Table);
    }
    Ok(())
}

// 9: k is 0 or above 16.
#[tactic(auto, unfolding(crate::specs::Conditions::k_number))]
pub fn check_k(k: u32) -> Result<(), Refusal>
    ensures { number result ≡ k_number k }
{
    if !(1..=16).contains(&k) {
        return Err(Refusal::Nearest);
    }
    Ok(())
}

// 9, by table: k is 0 or above K - 1. (Apart from `check_k`, though 17 for K makes them one: document 01 has two bounds, k_number and table_k_number.)
#[tactic(auto, unfolding(crate::specs::Conditions::table_k_number))]
pub fn check_table_k(k: u32, places: u32) -> Result<(), Refusal>
    ensures { number result ≡ table_k_number k places }
{
    if !(1..places).contains(&k) {
        return Err(Refusal::Nearest);
    }
    Ok(())
}

// S, the words of scratch that a call asks, for m from 1 to 17.
fn scratch_words(n: usize, arcs: usize, m: u32) -> usize
    requires { (n ≤ 65535) × (arcs ≤ 524288) × (m ≤ 17) }
    ensures { result ≡ 16 * n + 8 * (arcs + n) * m }
{
    16 * n + 8 * (arcs + n) * m as usize
}

// 10: an array has fewer entries than are asked.
#[tactic(auto, unfolding(crate::specs::Conditions::short_number))]
pub fn check_length(have: usize, need: usize) -> Result<(), Refusal>
    ensures { number result ≡ short_number have need }
{
    if have < need {
        return Err(Refusal::Short);
    }
    Ok(())
}

// 10: scratch has fewer words than S.
pub fn check_scratch(n: usize, arcs: usize, m: u32, have: usize) -> Result<(), Refusal>
    requires { (n ≤ 65535) × (arcs ≤ 524288) × (m ≤ 17) }
    ensures { number result ≡ short_number have (16 * n + 8 * (arcs + n) * m) }
{
    check_length(have, scratch_words(n, arcs, m))
}

// 10: scratch of eager, the short query or verify has fewer words than 12 × n, whatever k is (Ask 5).
pub fn check_eager_scratch(n: usize, have: usize) -> Result<(), Refusal>
    requires { n ≤ 65535 }
    ensures { number result ≡ short_number have (12 * n) }
{
    check_length(have, 12 * n)
}

// 11: insert at 15 lockers.
#[tactic(auto, unfolding(crate::specs::Conditions::full_number))]
pub fn check_room(points: &[u8], p: u32) -> Result<(), Refusal>
    ensures { number result ≡ full_number points.now p }
{
    if 15 <= lockers_at(points, p) {
        return Err(Refusal::Lockers);
    }
    Ok(())
}

// 11: remove or verify at no locker.
#[tactic(auto, unfolding(crate::specs::Conditions::unmarked_number))]
pub fn check_locker(points: &[u8], p: u32) -> Result<(), Refusal>
    ensures { number result ≡ unmarked_number points.now p }
{
    if lockers_at(points, p) == 0 {
        return Err(Refusal::Lockers);
    }
    Ok(())
}

// Whether two nodes have a road. Costs the logarithm of a's number of roads.
fn has_road(g: &Network<'_>, a: usize, b: u32) -> bool
    requires { RisingPart g.now.starts g.now.neighbours a }
    ensures { result ≡ has_road g.now a b }
{
    g.neighbours_of(a).binary_search(&b).is_ok()
}

// Of 14: the list is empty, or two nodes in sequence have no road.
#[tactic(auto, using(crate::proofs::Along::breaks_steps))]
fn bad_route(g: &Network<'_>, route: &[u32]) -> bool
    requires { RisingParts g.now.starts g.now.neighbours route.now }
    ensures { result ≡ bad_route g.now route.now }
{
    if route.is_empty() {
        return true;
    }
    for next in 1..route.len() {
        if !has_road(g, route[next - 1] as usize, route[next]) {
            return true;
        }
    }
    false
}

// 14, whatever the weights are: the list is empty, or two nodes in sequence have no road. It costs the number of nodes times the logarithm of the largest
// number of roads of one.
#[tactic(auto, using(crate::proofs::Along::route_weights), unfolding(crate::specs::Conditions::route_number))]
pub fn check_route(g: &Network<'_>, route: &[u32]) -> Result<(), Refusal>
    requires { RisingParts g.now.starts g.now.neighbours route.now }
    ensures { (weights : List ℕ) → number result ≡ route_number (network g.now.starts g.now.neighbours weights) route.now }
{
    if bad_route(g, route) {
        return Err(Refusal::Route);
    }
    Ok(())
}
