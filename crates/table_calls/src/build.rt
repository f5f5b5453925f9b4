// The build call: its work once no condition is met. Document 01, 'The table': 'Build fills it.' ids and distances are passed on as two, as `put_in_row`
// (rows) says.
ghost use Rattle.std.specs.Prelude.{◌≡◌};
ghost use Rattle.table.specs.Build.{BuildLeft};
ghost use Rattle.table_calls.specs.Build.{build_outcome};
ghost use Rattle.numbers.specs.Ready.{BuildReady};
ghost use Rattle.network.specs.Refusal.{number};

use network::{Network, Refusal};

// Clears the scratch, and fills the table over the part of it that is used.
fn run(
    g: &Network<'_>,
    points: &[u8],
    places: u32,
    scratch: &mut [u32],
    ids: &mut [u32],
    distances: &mut [u32],
)
    requires { BuildReady g.now points.now places scratch.old ids.old distances.old }
    ensures { BuildLeft g.now points.now scratch.old scratch.new ids.new distances.new places }
{
    let n = g.nodes();
    let row = places as usize;
    let used = n + 2 * (n + row * g.arcs());
    scratch.fill(0);
    table::build::build(g, points, &mut scratch[..used], ids, distances, row);
}

// The whole call.
#[tactic(auto, using(crate::proofs::Outcomes::build_refused, conditions::proofs::NotMet::number_some, numbers::proofs::Ready::build_ready))]
pub fn answer(
    g: &Network<'_>,
    points: &[u8],
    places: u32,
    scratch: &mut [u32],
    ids: &mut [u32],
    distances: &mut [u32],
) -> Result<(), Refusal>
    ensures { record { number = number result; scratch = scratch.new; ids = ids.new; distances = distances.new }
        ≡ build_outcome g.now points.now places scratch.old ids.old distances.old }
{
    numbers::check_build(g, points, places, scratch, ids, distances)?;
    run(g, points, places, scratch, ids, distances);
    Ok(())
}
