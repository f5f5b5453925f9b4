// The list of a site's households: its work once no condition is met. Document 02, Ask 1.
ghost use Rattle.std.specs.Prelude.{◌≡◌};
ghost use Rattle.household_calls.specs.Households.{households_outcome};
ghost use Rattle.network.specs.Refusal.{numbered};

use crate::number;
use conditions::answers::Listed;
use network::{Network, Refusal};

// The whole call.
#[tactic(auto, using(site_calls::proofs::Outcomes::list_refused, conditions::proofs::NotMet::number_some, site_calls::proofs::Outcomes::list_done, crate::proofs::Ready::households_ready, numbers::proofs::Cleared::all_zero), unfolding(crate::specs::Households::households_outcome))]
pub fn answer(
    g: &Network<'_>,
    households: &[u8],
    sites: &[u8],
    q: u32,
    k: u32,
    scratch: &mut [u32],
    answers: &mut [u32],
) -> Result<Listed, Refusal>
    ensures { record { answer = numbered result; scratch = scratch.new; answers = answers.new }
        ≡ households_outcome g.now households.now sites.now q k scratch.old answers.old }
{
    number::check_households(g, households, sites, q, k, scratch, answers)?;
    scratch.fill(0);
    let length = households::won(g, households, sites, scratch, answers, q, k as usize);
    Ok(Listed { length, count: 0 })
}
