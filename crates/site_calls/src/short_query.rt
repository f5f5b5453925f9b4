// The short query: its work once no condition of 1 to 10 is met. Document 01, 'What a site receives': 'The short query: no k and no limit; eager with
// [..] limit 65,535.' It lists no visits (Ask 4).
ghost use Rattle.std.specs.Prelude.{◌≡◌};
ghost use Rattle.site_calls.specs.Eager.{short_outcome};
ghost use Rattle.network.specs.Refusal.{numbered};

use crate::eager;
use conditions::answers::Listed;
use network::{Network, Refusal};

// 'The short query takes k = 2 from now on' (Ask 10).
const SHORT_K: u32 = 2;

// The whole call.
#[tactic(auto, using(crate::proofs::Outcomes::short_refused, conditions::proofs::NotMet::number_some, crate::proofs::Outcomes::short_left, numbers::proofs::Ready::limited_ready))]
pub fn answer(
    g: &Network<'_>,
    points: &[u8],
    q: u32,
    scratch: &mut [u32],
    answers: &mut [u32],
) -> Result<Listed, Refusal>
    ensures { record { answer = numbered result; scratch = scratch.new; answers = answers.new }
        ≡ short_outcome g.now points.now q scratch.old answers.old }
{
    numbers::check_limited(g, points, q, SHORT_K, scratch, answers)?;
    scratch.fill(0);
    eager::listed_of(searches::eager::without_visits(
        g,
        points,
        scratch,
        answers,
        q,
        SHORT_K as usize,
        65535,
    ))
}
