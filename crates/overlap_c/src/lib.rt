// The calls of include/overlap.h, as the static library liboverlap_c.a exports them to C. Each calls the function of its name in the crate `overlap`, whose
// comment says what is lent, returned and left, and states its clauses again: a crate is a library or a static library, not both.
#![tactic(auto)]

ghost use Rattle.std.specs.Prelude.{◌≡◌};
ghost use Rattle.network.specs.Network.{network};
ghost use Rattle.network.specs.Check.{network_number};
ghost use Rattle.site_calls.specs.Distances.{distances_outcome};
ghost use Rattle.site_calls.specs.Nearest.{nearest_outcome};
ghost use Rattle.site_calls.specs.Verify.{verify_outcome};
ghost use Rattle.conditions.specs.Values.{rule_verdict};
ghost use Rattle.site_calls.specs.Eager.{eager_outcome, short_outcome};
ghost use Rattle.site_calls.specs.Lazy.{lazy_outcome};
ghost use Rattle.table_calls.specs.TableCheck.{table_check_answer};
ghost use Rattle.conditions.specs.declared.kind.Kind.TheVariants.{Insert, Remove};
ghost use Rattle.table_calls.specs.TableQuery.{QueryArrays, TableQueryExported};
ghost use Rattle.table_calls.specs.Build.{build_outcome};
ghost use Rattle.table_calls.specs.Updated.{Arrays, ChangeExported};
ghost use Rattle.site_calls.specs.Exported.{NearestExported, VerifyExported, SearchExported, EagerExported};
ghost use Rattle.household_calls.specs.Households.{households_outcome};
ghost use Rattle.household_calls.specs.Sheet.{sheet_outcome};
ghost use Rattle.route_calls.specs.Route.{route_outcome};
ghost use Rattle.nearer_row.specs.Nearer.{row_number};
ghost use Rattle.nearer_row.specs.Part.{PartReturned};

use overlap::{Listing, RowPart, Update, Verdict};

#[unsafe(no_mangle)]
pub extern "C" fn overlap_network_check(starts: &[u32], neighbours: &[u32], weights: &[u32]) -> u32
    ensures { result ≡ network_number (network starts.now neighbours.now weights.now) }
{
    overlap::overlap_network_check(starts, neighbours, weights)
}

#[unsafe(no_mangle)]
pub extern "C" fn overlap_distances(
    starts: &[u32],
    neighbours: &[u32],
    weights: &[u32],
    node: u32,
    scratch: &mut [u32],
    answers: &mut [u32],
) -> u32
    ensures { let g = network starts.now neighbours.now weights.now in
        record { number = result; scratch = scratch.new; answers = answers.new }
        ≡ distances_outcome g node scratch.old answers.old }
{
    overlap::overlap_distances(starts, neighbours, weights, node, scratch, answers)
}

#[unsafe(no_mangle)]
pub extern "C" fn overlap_nearest(
    starts: &[u32],
    neighbours: &[u32],
    weights: &[u32],
    points: &[u8],
    node: u32,
    e: u32,
    k: u32,
    scratch: &mut [u32],
    ids: &mut [u32],
    distances: &mut [u32],
) -> Listing
    ensures { let g = network starts.now neighbours.now weights.now in
        let outcome = nearest_outcome g points.now node e k scratch.old ids.old distances.old in
        NearestExported outcome result scratch.new ids.new distances.new }
{
    overlap::overlap_nearest(
        starts, neighbours, weights, points, node, e, k, scratch, ids, distances,
    )
}

#[unsafe(no_mangle)]
pub extern "C" fn overlap_verify(
    starts: &[u32],
    neighbours: &[u32],
    weights: &[u32],
    points: &[u8],
    p: u32,
    q: u32,
    k: u32,
    scratch: &mut [u32],
) -> Verdict
    ensures { let g = network starts.now neighbours.now weights.now in
        let outcome = verify_outcome g points.now p q k scratch.old in
        VerifyExported outcome result scratch.new }
{
    overlap::overlap_verify(starts, neighbours, weights, points, p, q, k, scratch)
}

#[unsafe(no_mangle)]
pub extern "C" fn overlap_eager(
    starts: &[u32],
    neighbours: &[u32],
    weights: &[u32],
    points: &[u8],
    q: u32,
    k: u32,
    limit: u32,
    scratch: &mut [u32],
    answers: &mut [u32],
    visits: &mut [u32],
) -> Listing
    ensures { let g = network starts.now neighbours.now weights.now in
        let outcome = eager_outcome g points.now q k limit scratch.old answers.old visits.old in
        EagerExported outcome result scratch.new answers.new visits.new }
{
    overlap::overlap_eager(
        starts, neighbours, weights, points, q, k, limit, scratch, answers, visits,
    )
}

#[unsafe(no_mangle)]
pub extern "C" fn overlap_short_query(
    starts: &[u32],
    neighbours: &[u32],
    weights: &[u32],
    points: &[u8],
    q: u32,
    scratch: &mut [u32],
    answers: &mut [u32],
) -> Listing
    ensures { let g = network starts.now neighbours.now weights.now in
        let outcome = short_outcome g points.now q scratch.old answers.old in
        SearchExported outcome result scratch.new answers.new }
{
    overlap::overlap_short_query(starts, neighbours, weights, points, q, scratch, answers)
}

#[unsafe(no_mangle)]
pub extern "C" fn overlap_lazy(
    starts: &[u32],
    neighbours: &[u32],
    weights: &[u32],
    points: &[u8],
    q: u32,
    k: u32,
    scratch: &mut [u32],
    answers: &mut [u32],
) -> Listing
    ensures { let g = network starts.now neighbours.now weights.now in
        let outcome = lazy_outcome g points.now q k scratch.old answers.old in
        SearchExported outcome result scratch.new answers.new }
{
    overlap::overlap_lazy(starts, neighbours, weights, points, q, k, scratch, answers)
}

#[unsafe(no_mangle)]
pub extern "C" fn overlap_lazy_ep(
    starts: &[u32],
    neighbours: &[u32],
    weights: &[u32],
    points: &[u8],
    q: u32,
    k: u32,
    scratch: &mut [u32],
    answers: &mut [u32],
) -> Listing
    ensures { let g = network starts.now neighbours.now weights.now in
        let outcome = lazy_outcome g points.now q k scratch.old answers.old in
        SearchExported outcome result scratch.new answers.new }
{
    overlap::overlap_lazy_ep(starts, neighbours, weights, points, q, k, scratch, answers)
}

#[unsafe(no_mangle)]
pub extern "C" fn overlap_build(
    starts: &[u32],
    neighbours: &[u32],
    weights: &[u32],
    points: &[u8],
    places: u32,
    scratch: &mut [u32],
    ids: &mut [u32],
    distances: &mut [u32],
) -> u32
    ensures { let g = network starts.now neighbours.now weights.now in
        record { number = result; scratch = scratch.new; ids = ids.new; distances = distances.new }
        ≡ build_outcome g points.now places scratch.old ids.old distances.old }
{
    overlap::overlap_build(
        starts, neighbours, weights, points, places, scratch, ids, distances,
    )
}

#[unsafe(no_mangle)]
pub extern "C" fn overlap_insert(
    starts: &[u32],
    neighbours: &[u32],
    weights: &[u32],
    points: &mut [u8],
    node: u32,
    places: u32,
    scratch: &mut [u32],
    ids: &mut [u32],
    distances: &mut [u32],
) -> Update
    ensures { let g = network starts.now neighbours.now weights.now in
        let old : Arrays = record { points = points.old; scratch = scratch.old; ids = ids.old; distances = distances.old } in
        let new : Arrays = record { points = points.new; scratch = scratch.new; ids = ids.new; distances = distances.new } in
        ChangeExported Insert g node places old new result }
{
    overlap::overlap_insert(
        starts, neighbours, weights, points, node, places, scratch, ids, distances,
    )
}

#[unsafe(no_mangle)]
pub extern "C" fn overlap_remove(
    starts: &[u32],
    neighbours: &[u32],
    weights: &[u32],
    points: &mut [u8],
    node: u32,
    places: u32,
    scratch: &mut [u32],
    ids: &mut [u32],
    distances: &mut [u32],
) -> Update
    ensures { let g = network starts.now neighbours.now weights.now in
        let old : Arrays = record { points = points.old; scratch = scratch.old; ids = ids.old; distances = distances.old } in
        let new : Arrays = record { points = points.new; scratch = scratch.new; ids = ids.new; distances = distances.new } in
        ChangeExported Remove g node places old new result }
{
    overlap::overlap_remove(
        starts, neighbours, weights, points, node, places, scratch, ids, distances,
    )
}

#[unsafe(no_mangle)]
pub extern "C" fn overlap_table_check(
    starts: &[u32],
    neighbours: &[u32],
    weights: &[u32],
    points: &[u8],
    places: u32,
    ids: &[u32],
    distances: &[u32],
) -> Verdict
    ensures { let g = network starts.now neighbours.now weights.now in
        result ≡ rule_verdict (table_check_answer g points.now places ids.now distances.now) }
{
    overlap::overlap_table_check(starts, neighbours, weights, points, places, ids, distances)
}

#[unsafe(no_mangle)]
pub extern "C" fn overlap_table_query(
    starts: &[u32],
    neighbours: &[u32],
    weights: &[u32],
    points: &[u8],
    q: u32,
    k: u32,
    places: u32,
    ids: &[u32],
    distances: &[u32],
    scratch: &mut [u32],
    answers: &mut [u32],
) -> Listing
    ensures { let g = network starts.now neighbours.now weights.now in
        let lent : QueryArrays = record { ids = ids.now; distances = distances.now; scratch = scratch.old; answers = answers.old } in
        TableQueryExported g points.now q k places lent scratch.new answers.new result }
{
    overlap::overlap_table_query(
        starts, neighbours, weights, points, q, k, places, ids, distances, scratch, answers,
    )
}

#[unsafe(no_mangle)]
pub extern "C" fn overlap_households(
    starts: &[u32],
    neighbours: &[u32],
    weights: &[u32],
    households: &[u8],
    sites: &[u8],
    q: u32,
    k: u32,
    scratch: &mut [u32],
    answers: &mut [u32],
) -> Listing
    ensures { let g = network starts.now neighbours.now weights.now in
        let outcome = households_outcome g households.now sites.now q k scratch.old answers.old in
        SearchExported outcome result scratch.new answers.new }
{
    overlap::overlap_households(
        starts, neighbours, weights, households, sites, q, k, scratch, answers,
    )
}

#[unsafe(no_mangle)]
pub extern "C" fn overlap_sheet(
    starts: &[u32],
    neighbours: &[u32],
    weights: &[u32],
    households: &[u8],
    sites: &[u8],
    scratch: &mut [u32],
    answers: &mut [u32],
) -> u32
    ensures { let g = network starts.now neighbours.now weights.now in
        record { number = result; scratch = scratch.new; answers = answers.new }
        ≡ sheet_outcome g households.now sites.now scratch.old answers.old }
{
    overlap::overlap_sheet(
        starts, neighbours, weights, households, sites, scratch, answers,
    )
}

#[unsafe(no_mangle)]
pub extern "C" fn overlap_route(
    starts: &[u32],
    neighbours: &[u32],
    weights: &[u32],
    points: &[u8],
    route: &[u32],
    k: u32,
    scratch: &mut [u32],
    answers: &mut [u32],
) -> Listing
    ensures { let g = network starts.now neighbours.now weights.now in
        let outcome = route_outcome g points.now route.now k scratch.old answers.old in
        SearchExported outcome result scratch.new answers.new }
{
    overlap::overlap_route(
        starts, neighbours, weights, points, route, k, scratch, answers,
    )
}

#[unsafe(no_mangle)]
pub extern "C" fn overlap_nearer_row_number(
    starts: &[u32],
    neighbours: &[u32],
    weights: &[u32],
    junction: u32,
    places: u32,
    own_ids: &[u32],
    own_distances: &[u32],
    rival_ids: &[u32],
    rival_distances: &[u32],
) -> u32
    ensures { let g = network starts.now neighbours.now weights.now in
        result ≡ row_number g junction places own_ids.now own_distances.now rival_ids.now rival_distances.now }
{
    overlap::overlap_nearer_row_number(
        starts,
        neighbours,
        weights,
        junction,
        places,
        own_ids,
        own_distances,
        rival_ids,
        rival_distances,
    )
}

#[unsafe(no_mangle)]
pub extern "C" fn overlap_nearer_row_part(
    starts: &[u32],
    neighbours: &[u32],
    weights: &[u32],
    junction: u32,
    places: u32,
    own_ids: &[u32],
    own_distances: &[u32],
    rival_ids: &[u32],
    rival_distances: &[u32],
) -> RowPart
    ensures { let g = network starts.now neighbours.now weights.now in
        PartReturned g junction places own_ids.now own_distances.now rival_ids.now rival_distances.now result }
{
    overlap::overlap_nearer_row_part(
        starts,
        neighbours,
        weights,
        junction,
        places,
        own_ids,
        own_distances,
        rival_ids,
        rival_distances,
    )
}
