// The sheet: its work once no condition is met. Document 02, Ask 1.
ghost use Rattle.std.specs.Prelude.{◌≡◌};
ghost use Rattle.household_calls.specs.Sheet.{sheet_outcome};
ghost use Rattle.household_calls.specs.Work.{SheetReady};
ghost use Rattle.sheet.specs.Sheet.{SheetLeft};
ghost use Rattle.network.specs.Refusal.{number};

use crate::number;
use network::{Network, Refusal};

// Clears the scratch, and lends the work the first 6 n words, which are all that it uses and clears.
fn run(g: &Network<'_>, households: &[u8], sites: &[u8], scratch: &mut [u32], answers: &mut [u32])
    requires { SheetReady g.now scratch.old answers.old }
    ensures { SheetLeft g.now households.now sites.now scratch.old scratch.new answers.old answers.new }
{
    let used = 6 * g.nodes();
    scratch.fill(0);
    sheet::sheet::sheet(g, households, sites, &mut scratch[..used], answers);
}

// The whole call.
#[tactic(auto, using(site_calls::proofs::Outcomes::entries_refused, conditions::proofs::NotMet::number_some, site_calls::proofs::Outcomes::entries_done, crate::proofs::Ready::sheet_ready, numbers::proofs::Cleared::all_zero), unfolding(crate::specs::Sheet::sheet_outcome))]
pub fn answer(
    g: &Network<'_>,
    households: &[u8],
    sites: &[u8],
    scratch: &mut [u32],
    answers: &mut [u32],
) -> Result<(), Refusal>
    ensures { record { number = number result; scratch = scratch.new; answers = answers.new }
        ≡ sheet_outcome g.now households.now sites.now scratch.old answers.old }
{
    number::check_sheet(g, households, sites, scratch, answers)?;
    run(g, households, sites, scratch, answers);
    Ok(())
}
