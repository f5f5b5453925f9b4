// The conditions of each call: the first that is met, or none. Document 02, Ask 1: '6 covers each byte array [..] in the order lent'.
ghost use Rattle.std.specs.Prelude.{◌≡◌};
ghost use Rattle.household_calls.specs.Numbers.{both_number, households_number, sheet_number};
ghost use Rattle.network.specs.Refusal.{number};

use network::{Network, Refusal};

// The sheet's k, whatever the short query's is (Ask 10), and so the m of its 10. Its walk (sheet, list) is for one nearest and is passed no k.
const SHEET_K: u32 = 1;

// What both calls test first: 1 to 5, 6 of the households, 6 of the sites.
#[tactic(auto, using(conditions::proofs::NotMet::first_met, numbers::proofs::Ready::points_passed), unfolding(crate::specs::Numbers::both_number))]
fn check_both(g: &Network<'_>, households: &[u8], sites: &[u8]) -> Result<(), Refusal>
    ensures { number result ≡ both_number g.now households.now sites.now }
{
    numbers::check_network_points(g, households)?;
    conditions::check_points(g.nodes(), sites)
}

// The list: 1 to 5, 6, 6, 7, 9, 10; m is k.
#[tactic(auto, using(conditions::proofs::NotMet::first_met, crate::proofs::Ready::both_passed, numbers::proofs::Ready::k_passed), unfolding(crate::specs::Numbers::households_number))]
pub fn check_households(
    g: &Network<'_>,
    households: &[u8],
    sites: &[u8],
    q: u32,
    k: u32,
    scratch: &[u32],
    answers: &[u32],
) -> Result<(), Refusal>
    ensures { number result ≡ households_number g.now households.now sites.now q k scratch.now answers.now }
{
    check_both(g, households, sites)?;
    let n = g.nodes();
    conditions::check_node(n, q)?;
    conditions::check_k(k)?;
    conditions::check_scratch(n, g.arcs(), k, scratch.len())?;
    conditions::check_length(answers.len(), n)
}

// The sheet: 1 to 5, 6, 6, 10; m is its k.
#[tactic(auto, using(conditions::proofs::NotMet::first_met, crate::proofs::Ready::both_passed), unfolding(crate::specs::Numbers::sheet_number))]
pub fn check_sheet(
    g: &Network<'_>,
    households: &[u8],
    sites: &[u8],
    scratch: &[u32],
    answers: &[u32],
) -> Result<(), Refusal>
    ensures { number result ≡ sheet_number g.now households.now sites.now scratch.now answers.now }
{
    check_both(g, households, sites)?;
    let n = g.nodes();
    conditions::check_scratch(n, g.arcs(), SHEET_K, scratch.len())?;
    conditions::check_length(answers.len(), n)
}
