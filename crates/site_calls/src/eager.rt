// The eager call: its work once no condition of 1 to 10 is met. Document 01, 'What a site receives': 'It takes a 32-bit limit and returns the list
// and the count of nodes expanded.' Document 02, Ask 4: 'Eager also lists the nodes that its count counts'.
ghost use Rattle.std.specs.Prelude.{◌≡◌};
ghost use Rattle.site_calls.specs.Eager.{eager_outcome};
ghost use Rattle.site_calls.specs.Work.{limited_listed};
ghost use Rattle.network.specs.Refusal.{numbered};

use conditions::answers::Listed;
use network::{Network, Refusal};
use searches::eager::LimitedList;

// The answer of a search with a limit: refused where the count would exceed it.
pub fn listed_of(answer: Option<LimitedList>) -> Result<Listed, Refusal>
    ensures { numbered result ≡ limited_listed answer }
{
    let LimitedList { size, count } = answer.ok_or(Refusal::Limit)?;
    Ok(Listed {
        length: size,
        count,
    })
}

// The whole call.
#[tactic(auto, using(crate::proofs::Outcomes::eager_refused, conditions::proofs::NotMet::number_some, crate::proofs::Outcomes::eager_left, numbers::proofs::Ready::eager_ready))]
pub fn answer(
    g: &Network<'_>,
    points: &[u8],
    q: u32,
    k: u32,
    limit: u32,
    scratch: &mut [u32],
    answers: &mut [u32],
    visits: &mut [u32],
) -> Result<Listed, Refusal>
    ensures { record { search = record { answer = numbered result; scratch = scratch.new; answers = answers.new }; visits = visits.new }
        ≡ eager_outcome g.now points.now q k limit scratch.old answers.old visits.old }
{
    numbers::check_eager(g, points, q, k, scratch, answers, visits)?;
    scratch.fill(0);
    listed_of(searches::eager::eager(g, points, scratch, answers, visits, q, k as usize, limit))
}
