// The network check: document 01, 'Numbers of refusal', 1 to 5. Each condition has its own test.
ghost use Rattle.std.specs.Prelude.{◌≡◌, ◌+◌, ◌-◌, ◌≤◌, ◌<◌, length};
ghost use Rattle.network.specs.Count.{any};
ghost use Rattle.network.specs.Parts.{Parts, Searchable};
ghost use Rattle.network.specs.Check.{bad_size, falls_at, bad_starts, bad_part, bad_neighbours, bad_weights, lacks_return_of, lacks_return, network_number};
ghost use Rattle.network.specs.Refusal.{number};

use crate::arcs::Network;
use crate::refusal::Refusal;

// 1: starts has fewer than 2 or more than 65,536 entries.
#[tactic(auto, unfolding(crate::specs::Check::bad_size))]
fn bad_size(g: &Network<'_>) -> bool
    ensures { result ≡ bad_size g.now.starts }
{
    g.starts.len() < 2 || 65536 < g.starts.len()
}

// Of 2: starts falls somewhere.
fn starts_fall(starts: &[u32]) -> bool
    requires { 1 ≤ length starts.now }
    ensures { result ≡ any (falls_at starts.now) (length starts.now - 1) }
{
    for a in 0..starts.len() - 1 {
        if starts[a + 1] < starts[a] {
            return true;
        }
    }
    false
}

// 2: starts doesn't begin with 0, falls, or doesn't end with A; neighbours and weights differ in length; A is above 524,288.
#[tactic(auto, unfolding(crate::specs::Check::bad_starts))]
fn bad_starts(g: &Network<'_>) -> bool
    requires { 1 ≤ length g.now.starts }
    ensures { result ≡ bad_starts g.now }
{
    let last = g.starts[g.starts.len() - 1] as usize;
    g.starts[0] != 0
        || starts_fall(g.starts)
        || last != g.neighbours.len()
        || g.weights.len() != g.neighbours.len()
        || 524288 < g.neighbours.len()
}

// Of 3: one of node a's neighbours is n or more, is a, or does not rise above the one before it.
#[tactic(auto, using(crate::proofs::CheckTests::no_neighbour, crate::proofs::CheckTests::neighbour_high_found, crate::proofs::CheckTests::neighbour_own_found, crate::proofs::CheckTests::neighbour_falls_found, crate::proofs::CheckTests::neighbour_first_passed, crate::proofs::CheckTests::neighbour_passed), unfolding(crate::specs::Check::bad_part))]
fn bad_part(n: usize, a: usize, neighbours: &[u32]) -> bool
    ensures { result ≡ bad_part n a neighbours.now }
{
    for (j, &b) in neighbours.iter().enumerate() {
        let b = b as usize;
        if n <= b || b == a {
            return true;
        }
        if 0 < j && b <= neighbours[j - 1] as usize {
            return true;
        }
    }
    false
}

// 3: a neighbour is n or more, is its own node, or doesn't rise strictly within a node.
fn bad_neighbours(g: &Network<'_>) -> bool
    requires { Parts g.now.starts g.now.neighbours }
    ensures { result ≡ bad_neighbours g.now.starts g.now.neighbours }
{
    let n = g.nodes();
    for a in 0..n {
        if bad_part(n, a, g.neighbours_of(a)) {
            return true;
        }
    }
    false
}

// 4: a weight is 0 or above 65,535.
#[tactic(auto, using(crate::proofs::CheckTests::no_weight, crate::proofs::CheckTests::weight_none_found, crate::proofs::CheckTests::weight_high_found, crate::proofs::CheckTests::weight_passed), unfolding(crate::specs::Check::bad_weights))]
fn bad_weights(g: &Network<'_>) -> bool
    ensures { result ≡ bad_weights g.now.weights }
{
    for &w in g.weights {
        if w == 0 || 65535 < w {
            return true;
        }
    }
    false
}

// Of 5: one of node a's arcs lacks its return.
fn lacks_return_of(g: &Network<'_>, a: u32) -> bool
    requires searchable { Searchable g.now }
    requires a_in_bounds { (a + 1 < length g.now.starts) × (length g.now.starts ≤ 65536) }
    ensures { result ≡ lacks_return_of g.now a }
{
    let neighbours = g.neighbours_of(a as usize);
    let weights = g.weights_of(a as usize);
    for (j, &b) in neighbours.iter().enumerate() {
        if !g.has_arc(b as usize, a, weights[j]) {
            return true;
        }
    }
    false
}

// 5: an arc lacks its return of equal weight.
fn lacks_return(g: &Network<'_>) -> bool
    requires searchable { Searchable g.now }
    requires starts_len_bound { length g.now.starts ≤ 65536 }
    ensures { result ≡ lacks_return g.now }
{
    let n = g.nodes() as u32;
    for a in 0..n {
        if lacks_return_of(g, a) {
            return true;
        }
    }
    false
}

// The first condition met. It costs the number of arcs times the logarithm of the largest number of arcs of a node.
pub fn check(g: &Network<'_>) -> Result<(), Refusal>
    ensures { number result ≡ network_number g.now }
{
    if bad_size(g) {
        return Err(Refusal::Size);
    }
    if bad_starts(g) {
        return Err(Refusal::Starts);
    }
    if bad_neighbours(g) {
        return Err(Refusal::Neighbours);
    }
    if bad_weights(g) {
        return Err(Refusal::Weights);
    }
    if lacks_return(g) {
        return Err(Refusal::Returns);
    }
    Ok(())
}
