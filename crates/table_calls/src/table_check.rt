// The table check: the check once no condition is met. Document 01, 'The table': 'Table check: yes exactly when both arrays are the table that build
// would write, whoever filled them.'
ghost use Rattle.std.specs.Prelude.{◌≡◌};
ghost use Rattle.table_calls.specs.TableCheck.{table_check_answer};
ghost use Rattle.network.specs.Refusal.{numbered};

use network::{Network, Refusal};
use rows::table::Table;

// The whole call.
#[tactic(auto, using(crate::proofs::Outcomes::check_refused, conditions::proofs::NotMet::number_some, crate::proofs::Outcomes::check_done, crate::proofs::Outcomes::can_check))]
pub fn answer(
    g: &Network<'_>,
    points: &[u8],
    places: u32,
    ids: &[u32],
    distances: &[u32],
) -> Result<bool, Refusal>
    ensures { numbered result ≡ table_check_answer g.now points.now places ids.now distances.now }
{
    numbers::check_table_arrays(g, points, places, ids, distances)?;
    let table = Table {
        ids,
        distances,
        places: places as usize,
    };
    Ok(rows::check::check(g, points, table))
}
