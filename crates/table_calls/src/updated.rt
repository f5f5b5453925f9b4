// The insert and the remove call: their work once no condition is met. Document 01, 'The table', with Ask 8: 'Insert adds one, remove takes one';
// 'each brings the table up to date and returns the number of rows whose contents differ before and after.' ids and distances are passed on as two, as
// `put_in_row` (rows) says.
ghost use Rattle.table.specs.Updated.{UpdateLeft};
ghost use Rattle.table_calls.specs.Updated.{kind_marks, Arrays, ChangeLeft};
ghost use Rattle.numbers.specs.Ready.{ChangeReady};
ghost use Rattle.table_calls.specs.Work.{CanChange};
ghost use Rattle.network.specs.Refusal.{numbered};

use conditions::kind::Kind;
use network::{Network, Refusal};

// Brings marks and table up to date, over an area that is all 0 before and after.
fn change(
    kind: Kind,
    g: &Network<'_>,
    points: &mut [u8],
    area: &mut [u32],
    ids: &mut [u32],
    distances: &mut [u32],
    node: u32,
    places: usize,
) -> u32
    requires { CanChange kind g.now points.old area.old ids.old distances.old node places }
    ensures { UpdateLeft g.now points.old (kind_marks kind points.old node) points.new area.old area.new ids.old distances.old ids.new distances.new places result }
{
    match kind {
        Kind::Insert => table::insert::insert(g, points, area, ids, distances, node, places),
        Kind::Remove => table::remove::remove(g, points, area, ids, distances, node, places),
    }
}

// Clears the scratch, and brings marks and table up to date over the part of it that is used.
fn run(
    kind: Kind,
    g: &Network<'_>,
    points: &mut [u8],
    node: u32,
    places: u32,
    scratch: &mut [u32],
    ids: &mut [u32],
    distances: &mut [u32],
) -> u32
    requires { ChangeReady kind g.now points.old node places scratch.old ids.old distances.old }
    ensures { UpdateLeft g.now points.old (kind_marks kind points.old node) points.new scratch.old scratch.new ids.old distances.old ids.new distances.new places result }
{
    let used = 4 * g.nodes() + 2 * g.arcs();
    scratch.fill(0);
    change(
        kind,
        g,
        points,
        &mut scratch[..used],
        ids,
        distances,
        node,
        places as usize,
    )
}

// The whole call.
#[tactic(auto, using(crate::proofs::Outcomes::change_unmet, crate::proofs::Outcomes::change_done, numbers::proofs::Ready::change_ready))]
pub fn answer(
    kind: Kind,
    g: &Network<'_>,
    points: &mut [u8],
    node: u32,
    places: u32,
    scratch: &mut [u32],
    ids: &mut [u32],
    distances: &mut [u32],
) -> Result<u32, Refusal>
    ensures { let old : Arrays = record { points = points.old; scratch = scratch.old; ids = ids.old; distances = distances.old } in
        let new : Arrays = record { points = points.new; scratch = scratch.new; ids = ids.new; distances = distances.new } in
        ChangeLeft kind g.now node places old new (numbered result) }
{
    numbers::check_change(kind, g, points, node, places, scratch, ids, distances)?;
    let changed = run(kind, g, points, node, places, scratch, ids, distances);
    Ok(changed)
}
