// Ask 1's row: of an own table and a rival's, the row whose first entry is nearer, as the part of the lent array that it is. Document 02, Ask 1.
// Both tables have one K, so that their arrays are lent as they are: a `Table` has a K of its own.
#![tactic(auto)]

ghost use Rattle.std.specs.Prelude.{◌≡◌};
ghost use Rattle.network.specs.Refusal.{number};
ghost use Rattle.nearer_row.specs.Nearer.{own_nearer, nearer_row, row_number, row_outcome};
ghost use Rattle.nearer_row.specs.Part.{nearer_part, PartReturned};
ghost use Rattle.nearer_row.specs.Work.{BothHaveRow};

use conditions::answers::RowPart;
use network::{Network, Refusal};
use rows::rows::row_of;

// Whether row i begins no farther in the own distances than in the rival's. NONE is the largest number, so that plain numbers are compared.
#[tactic(auto, using(rows::proofs::CheckTests::row_part_length), unfolding(crate::specs::Nearer::own_nearer))]
fn own_nearer(own: &[u32], rival: &[u32], i: usize, places: usize) -> bool
    requires { BothHaveRow places i own.now rival.now }
    ensures { result ≡ own_nearer places i own.now rival.now }
{
    let own_row = row_of(own, i, places);
    let rival_row = row_of(rival, i, places);
    own_row[0] <= rival_row[0]
}

// The nearer of both rows i. Nothing is copied.
#[tactic(auto, unfolding(crate::specs::Nearer::nearer_row))]
fn nearer_row<'a>(own: &'a [u32], rival: &'a [u32], i: usize, places: usize) -> &'a [u32]
    requires { BothHaveRow places i own.now rival.now }
    ensures { result.now ≡ nearer_row places i own.now rival.now }
{
    if own_nearer(own, rival, i, places) {
        return row_of(own, i, places);
    }
    row_of(rival, i, places)
}

// The same row, by its place.
#[tactic(auto, unfolding(crate::specs::Part::nearer_part))]
fn nearer_part(own: &[u32], rival: &[u32], i: usize, places: usize) -> RowPart
    requires { BothHaveRow places i own.now rival.now }
    ensures { result ≡ nearer_part places i own.now rival.now }
{
    RowPart {
        number: 0,
        rival: u32::from(!own_nearer(own, rival, i, places)),
        start: i * places,
        length: places,
    }
}

// The conditions: 1 to 5, 7, 8 of the own table, 8 of the rival's. 'a second call on the same inputs gives the number.'
#[tactic(auto, using(conditions::proofs::NotMet::first_met, crate::proofs::Outcomes::network_passed), unfolding(crate::specs::Nearer::row_number))]
pub fn check(
    g: &Network<'_>,
    junction: u32,
    places: u32,
    own_ids: &[u32],
    own_distances: &[u32],
    rival_ids: &[u32],
    rival_distances: &[u32],
) -> Result<(), Refusal>
    ensures { number result ≡ row_number g.now junction places own_ids.now own_distances.now rival_ids.now rival_distances.now }
{
    network::check::check(g)?;
    let n = g.nodes();
    conditions::check_node(n, junction)?;
    conditions::check_table(n, places, own_ids.len(), own_distances.len())?;
    conditions::check_table(n, places, rival_ids.len(), rival_distances.len())
}

// The whole call. 'the call hands back the row whose first entry is nearer, the own one when equal. [..] It returns the row's distances, on a refusal an
// empty part'.
pub fn row<'a>(
    g: &Network<'_>,
    junction: u32,
    places: u32,
    own_ids: &[u32],
    own_distances: &'a [u32],
    rival_ids: &[u32],
    rival_distances: &'a [u32],
) -> &'a [u32]
    ensures { result.now ≡ row_outcome g.now junction places own_ids.now own_distances.now rival_ids.now rival_distances.now }
{
    match check(
        g,
        junction,
        places,
        own_ids,
        own_distances,
        rival_ids,
        rival_distances,
    ) {
        Ok(()) => nearer_row(
            own_distances,
            rival_distances,
            junction as usize,
            places as usize,
        ),
        Err(_) => &own_distances[..0],
    }
}

// The whole call with its number, by value: overlap.h's struct, which names the part that `row` returns.
pub fn part(
    g: &Network<'_>,
    junction: u32,
    places: u32,
    own_ids: &[u32],
    own_distances: &[u32],
    rival_ids: &[u32],
    rival_distances: &[u32],
) -> RowPart
    ensures { PartReturned g.now junction places own_ids.now own_distances.now rival_ids.now rival_distances.now result }
{
    match check(
        g,
        junction,
        places,
        own_ids,
        own_distances,
        rival_ids,
        rival_distances,
    ) {
        Ok(()) => nearer_part(
            own_distances,
            rival_distances,
            junction as usize,
            places as usize,
        ),
        Err(refusal) => RowPart {
            number: refusal.into(),
            rival: 0,
            start: 0,
            length: 0,
        },
    }
}
