// The table query: its work once no condition is met. Document 01, 'The table': 'Table query (eager-M): the list, k from 1 to K - 1, since a point's
// row spends one place on itself.' ids, distances and K come as overlap.h lends them; `run` makes the Table, once K is known to fit.
ghost use Rattle.query.specs.Query.{QueryLeft};
ghost use Rattle.numbers.specs.Ready.{TableQueryReady};
ghost use Rattle.table_calls.specs.TableQuery.{QueryArrays, TableQueryLeft};
ghost use Rattle.network.specs.Refusal.{numbered};

use conditions::answers::Listed;
use network::{Network, Refusal};
use rows::table::Table;

// Clears the scratch, and searches over the part of it that is used.
fn run(
    g: &Network<'_>,
    points: &[u8],
    q: u32,
    k: u32,
    places: u32,
    ids: &[u32],
    distances: &[u32],
    scratch: &mut [u32],
    answers: &mut [u32],
) -> usize
    requires { TableQueryReady g.now points.now q k places ids.now distances.now scratch.old answers.old }
    ensures { QueryLeft g.now points.now ids.now distances.now q k places scratch.old scratch.new answers.old answers.new result }
{
    let used = 10 * g.nodes();
    scratch.fill(0);
    let table = Table {
        ids,
        distances,
        places: places as usize,
    };
    query::query::query(
        g,
        points,
        table,
        &mut scratch[..used],
        answers,
        q,
        k as usize,
    )
}

// The whole call.
#[tactic(auto, using(crate::proofs::Outcomes::query_unmet, crate::proofs::Outcomes::query_done, numbers::proofs::Ready::table_query_ready))]
pub fn answer(
    g: &Network<'_>,
    points: &[u8],
    q: u32,
    k: u32,
    places: u32,
    ids: &[u32],
    distances: &[u32],
    scratch: &mut [u32],
    answers: &mut [u32],
) -> Result<Listed, Refusal>
    ensures { let lent : QueryArrays = record { ids = ids.now; distances = distances.now; scratch = scratch.old; answers = answers.old } in
        TableQueryLeft g.now points.now q k places lent scratch.new answers.new (numbered result) }
{
    numbers::check_table_query(g, points, q, k, places, ids, distances, scratch, answers)?;
    let length = run(g, points, q, k, places, ids, distances, scratch, answers);
    Ok(Listed { length, count: 0 })
}
