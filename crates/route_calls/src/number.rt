// The conditions of the call: the first that is met, or none. Document 02, Ask 7.
ghost use Rattle.std.specs.Prelude.{◌≡◌};
ghost use Rattle.route_calls.specs.Numbers.{route_call_number};
ghost use Rattle.network.specs.Refusal.{number};

use network::{Network, Refusal};

// 1 to 5, 6, 7 of each node, 9, 10, 14; m is k.
#[tactic(auto, using(conditions::proofs::NotMet::first_met, numbers::proofs::Ready::points_passed, numbers::proofs::Ready::k_passed), unfolding(crate::specs::Numbers::route_call_number))]
pub fn check_route_call(
    g: &Network<'_>,
    points: &[u8],
    route: &[u32],
    k: u32,
    scratch: &[u32],
    answers: &[u32],
) -> Result<(), Refusal>
    ensures { number result ≡ route_call_number g.now points.now route.now k scratch.now answers.now }
{
    numbers::check_network_points(g, points)?;
    let n = g.nodes();
    conditions::check_nodes(n, route)?;
    conditions::check_k(k)?;
    conditions::check_scratch(n, g.arcs(), k, scratch.len())?;
    conditions::check_length(answers.len(), n)?;
    conditions::check_route(g, route)
}
