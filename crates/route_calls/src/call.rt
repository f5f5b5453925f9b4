// The lockers that a route touches: the work once no condition is met. Document 02, Ask 7.
ghost use Rattle.std.specs.Prelude.{◌≡◌};
ghost use Rattle.route_calls.specs.Route.{route_outcome};
ghost use Rattle.network.specs.Refusal.{numbered};

use crate::number;
use conditions::answers::Listed;
use network::{Network, Refusal};

// The whole call.
#[tactic(auto, using(site_calls::proofs::Outcomes::list_refused, conditions::proofs::NotMet::number_some, site_calls::proofs::Outcomes::list_done, crate::proofs::Ready::route_call_ready, numbers::proofs::Cleared::all_zero), unfolding(crate::specs::Route::route_outcome))]
pub fn answer(
    g: &Network<'_>,
    points: &[u8],
    route: &[u32],
    k: u32,
    scratch: &mut [u32],
    answers: &mut [u32],
) -> Result<Listed, Refusal>
    ensures { record { answer = numbered result; scratch = scratch.new; answers = answers.new }
        ≡ route_outcome g.now points.now route.now k scratch.old answers.old }
{
    number::check_route_call(g, points, route, k, scratch, answers)?;
    scratch.fill(0);
    let length = routes::touched(g, points, route, scratch, answers, k as usize);
    Ok(Listed { length, count: 0 })
}
