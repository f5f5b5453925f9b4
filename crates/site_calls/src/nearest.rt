// The nearest call: its work once no condition is met. Document 01, 'What a site receives': 'Nearest: the points p with d(node, p) < e, e any 32-bit
// number, by distance then node, cut after the first k; ids and distances in two arrays.'
ghost use Rattle.std.specs.Prelude.{◌≡◌, length, replicate};
ghost use Rattle.site_calls.specs.Nearest.{nearest_outcome};
ghost use Rattle.numbers.specs.Ready.{NearestReady};
ghost use Rattle.site_calls.specs.Work.{NearestDone};
ghost use Rattle.network.specs.Refusal.{numbered};

use conditions::answers::Listed;
use expansion::words;
use network::{Network, Refusal};

// Clears the scratch, searches over it, copies what was found, and clears that.
#[tactic(auto, using(network::proofs::Rows::nearest_length))]
fn run(
    g: &Network<'_>,
    points: &[u8],
    node: u32,
    e: u32,
    k: u32,
    scratch: &mut [u32],
    ids: &mut [u32],
    distances: &mut [u32],
) -> usize
    requires { NearestReady g.now points.now node k scratch.old ids.old distances.old }
    ensures cleared { scratch.new ≡ replicate (length scratch.old) 0 }
    ensures done { NearestDone g.now points.now node e k ids.old ids.new distances.old distances.new result }
{
    let wanted = k as usize;
    scratch.fill(0);
    let found = expansion::nearest::nearest(g, points, scratch, node, e, wanted);
    words::copy(scratch, wanted, found, ids);
    let behind = 2 * wanted;
    words::copy(scratch, behind, found, distances);
    let end = 3 * wanted;
    scratch[..end].fill(0);
    found
}

// The whole call.
#[tactic(auto, using(crate::proofs::Outcomes::nearest_refused, conditions::proofs::NotMet::number_some, crate::proofs::Outcomes::nearest_done, numbers::proofs::Ready::nearest_ready))]
pub fn answer(
    g: &Network<'_>,
    points: &[u8],
    node: u32,
    e: u32,
    k: u32,
    scratch: &mut [u32],
    ids: &mut [u32],
    distances: &mut [u32],
) -> Result<Listed, Refusal>
    ensures { record { answer = numbered result; scratch = scratch.new; ids = ids.new; distances = distances.new }
        ≡ nearest_outcome g.now points.now node e k scratch.old ids.old distances.old }
{
    numbers::check_nearest(g, points, node, k, scratch, ids, distances)?;
    let length = run(g, points, node, e, k, scratch, ids, distances);
    Ok(Listed { length, count: 0 })
}
