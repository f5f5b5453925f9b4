// The distances call: its work once no condition is met. Document 01, 'What a site receives': 'Distances from a node: n entries, NONE where none.'
ghost use Rattle.std.specs.Prelude.{◌≡◌};
ghost use Rattle.site_calls.specs.Distances.{distances_outcome};
ghost use Rattle.network.specs.Refusal.{number};

use network::{Network, Refusal};

// The whole call.
#[tactic(auto, using(crate::proofs::Outcomes::distances_refused, conditions::proofs::NotMet::number_some, crate::proofs::Outcomes::distances_done, numbers::proofs::Ready::distances_ready, numbers::proofs::Cleared::all_zero))]
pub fn answer(
    g: &Network<'_>,
    node: u32,
    scratch: &mut [u32],
    answers: &mut [u32],
) -> Result<(), Refusal>
    ensures { record { number = number result; scratch = scratch.new; answers = answers.new }
        ≡ distances_outcome g.now node scratch.old answers.old }
{
    numbers::check_distances(g, node, scratch, answers)?;
    scratch.fill(0);
    expansion::distances::distances(g, scratch, answers, node);
    Ok(())
}
