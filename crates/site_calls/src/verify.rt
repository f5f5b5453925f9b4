// The verify call: its work once no condition is met. Document 01, 'What a site receives': 'Verify: for a marked p and q, yes or no by the rule
// above.'
ghost use Rattle.std.specs.Prelude.{◌≡◌};
ghost use Rattle.site_calls.specs.Verify.{verify_outcome};
ghost use Rattle.network.specs.Refusal.{numbered};

use expansion::verify::Site;
use network::{Network, Refusal};

// The whole call.
#[tactic(auto, using(crate::proofs::Outcomes::verify_refused, conditions::proofs::NotMet::number_some, crate::proofs::Outcomes::verify_done, numbers::proofs::Ready::verify_ready, numbers::proofs::Cleared::all_zero))]
pub fn answer(
    g: &Network<'_>,
    points: &[u8],
    p: u32,
    q: u32,
    k: u32,
    scratch: &mut [u32],
) -> Result<bool, Refusal>
    ensures { record { answer = numbered result; scratch = scratch.new } ≡ verify_outcome g.now points.now p q k scratch.old }
{
    numbers::check_verify(g, points, p, q, k, scratch)?;
    scratch.fill(0);
    let yes = expansion::verify::verify(g, points, scratch, 0, p, Site::One { q }, k as usize);
    Ok(yes)
}
