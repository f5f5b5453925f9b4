// The public calls of the overlap engine, as include/overlap.h declares them (the crate `overlap_c` exports them to C), and `overlap_nearer_row`, which returns a
// reference and is for Rattle alone. None has a requires: bad input is refused by its number.
#![tactic(auto, using(crate::proofs::Exported::exported))]

ghost use Rattle.std.specs.Prelude.{◌≡◌};
ghost use Rattle.network.specs.Network.{network};
ghost use Rattle.network.specs.Check.{network_number};
ghost use Rattle.site_calls.specs.Distances.{distances_outcome};
ghost use Rattle.site_calls.specs.Nearest.{nearest_outcome};
ghost use Rattle.site_calls.specs.Verify.{verify_outcome};
ghost use Rattle.conditions.specs.Values.{rule_verdict};
ghost use Rattle.site_calls.specs.Eager.{eager_outcome, short_outcome};
ghost use Rattle.site_calls.specs.Lazy.{lazy_outcome};
ghost use Rattle.table_calls.specs.TableCheck.{table_check_answer};
ghost use Rattle.conditions.specs.declared.kind.Kind.TheVariants.{Insert, Remove};
ghost use Rattle.table_calls.specs.TableQuery.{QueryArrays, TableQueryExported};
ghost use Rattle.table_calls.specs.Build.{build_outcome};
ghost use Rattle.table_calls.specs.Updated.{Arrays, ChangeExported};
ghost use Rattle.site_calls.specs.Exported.{NearestExported, VerifyExported, SearchExported, EagerExported};
ghost use Rattle.household_calls.specs.Households.{households_outcome};
ghost use Rattle.household_calls.specs.Sheet.{sheet_outcome};
ghost use Rattle.route_calls.specs.Route.{route_outcome};
ghost use Rattle.nearer_row.specs.Nearer.{row_number, row_outcome};
ghost use Rattle.nearer_row.specs.Part.{PartReturned};

pub use conditions::answers::{Listing, RowPart, Update, Verdict};
use conditions::kind::Kind;
use household_calls::{entries, list};
use network::Network;
use network::refusal::number;
use route_calls::call;
use site_calls::lazy::Method;
use site_calls::{distances, eager, lazy, nearest, short_query, verify};
use table_calls::{build, table_check, table_query, updated};

// The network check. Lent: the three network arrays, of any lengths and values, and nothing is written. Returned: 0 for an accepted network, or
// the number of the first condition met, 1 to 5. Document 01: 'Network check: the three network arrays alone; the answer is its number, 0 or 1
// to 5.'
pub fn overlap_network_check(starts: &[u32], neighbours: &[u32], weights: &[u32]) -> u32
    ensures { result ≡ network_number (network starts.now neighbours.now weights.now) }
{
    let g = Network::new(starts, neighbours, weights);
    number(network::check::check(&g))
}

// Distances from a node. Lent: the network, scratch of S entries with m = 1, and an array for n answers. Returned: 0, or 1 to 5, 7, 10. Accepted:
// the answers are the n distances, NONE where none, then the old entries, and the whole scratch is zero. Refused: nothing is written. Document
// 01: 'Distances from a node: n entries, NONE where none.'
pub fn overlap_distances(
    starts: &[u32],
    neighbours: &[u32],
    weights: &[u32],
    node: u32,
    scratch: &mut [u32],
    answers: &mut [u32],
) -> u32
    ensures { let g = network starts.now neighbours.now weights.now in
        record { number = result; scratch = scratch.new; answers = answers.new }
        ≡ distances_outcome g node scratch.old answers.old }
{
    let g = Network::new(starts, neighbours, weights);
    number(distances::answer(&g, node, scratch, answers))
}

// Nearest. Lent: the network, the points, scratch of S entries with m = k, and two arrays for k answers each. Returned: number 0 and how many
// points were found, or 1 to 5, 6, 7, 9, 10. Accepted: the ids and the distances of the points p with d(node, p) < e, by distance then node, a node
// for each of its lockers, cut after the first k, then the old entries, and the whole scratch is zero. Refused: nothing is written. Document 01:
// 'Nearest: the points p with d(node, p) < e, e any 32-bit number, by distance then node, cut after the first k; ids and distances in two arrays.'
pub fn overlap_nearest(
    starts: &[u32],
    neighbours: &[u32],
    weights: &[u32],
    points: &[u8],
    node: u32,
    e: u32,
    k: u32,
    scratch: &mut [u32],
    ids: &mut [u32],
    distances: &mut [u32],
) -> Listing
    ensures { let g = network starts.now neighbours.now weights.now in
        let outcome = nearest_outcome g points.now node e k scratch.old ids.old distances.old in
        NearestExported outcome result scratch.new ids.new distances.new }
{
    let g = Network::new(starts, neighbours, weights);
    nearest::answer(&g, points, node, e, k, scratch, ids, distances).into()
}

// Verify. Lent: the network, the points and scratch of 12 × n entries (Ask 5). Returned: number 0 and yes or no, or 1 to 5, 6, 7, 9, 10, 11.
// Accepted: the whole scratch is zero. Refused: nothing is written. Document 01: 'Verify: for a marked p and q, yes or no by the rule above.'
pub fn overlap_verify(
    starts: &[u32],
    neighbours: &[u32],
    weights: &[u32],
    points: &[u8],
    p: u32,
    q: u32,
    k: u32,
    scratch: &mut [u32],
) -> Verdict
    ensures { let g = network starts.now neighbours.now weights.now in
        let outcome = verify_outcome g points.now p q k scratch.old in
        VerifyExported outcome result scratch.new }
{
    let g = Network::new(starts, neighbours, weights);
    verify::answer(&g, points, p, q, k, scratch).into()
}

// Eager. Lent: the network, the points, scratch of 12 × n entries (Ask 5), an array for n answers, and one for n visits (Ask 4). Returned: number 0, the
// length of the list and the nodes expanded, or 1 to 5, 6, 7, 9, 10, 12. Accepted: the answers are the listed points, ascending, then the old entries; the
// visits are the nodes expanded, by distance from q and then by node, then the old entries; and the whole scratch is zero. Refused: nothing is written, but
// 12 leaves the whole scratch zero. Document 01: 'Eager (000, Fig. 4): expands outward from q, stops behind a node with k points strictly nearer than
// q. It takes a 32-bit limit and returns the list and the count of nodes expanded.' Document 02: 'Eager also lists the nodes that its count counts, by
// distance from the site and then by node'.
pub fn overlap_eager(
    starts: &[u32],
    neighbours: &[u32],
    weights: &[u32],
    points: &[u8],
    q: u32,
    k: u32,
    limit: u32,
    scratch: &mut [u32],
    answers: &mut [u32],
    visits: &mut [u32],
) -> Listing
    ensures { let g = network starts.now neighbours.now weights.now in
        let outcome = eager_outcome g points.now q k limit scratch.old answers.old visits.old in
        EagerExported outcome result scratch.new answers.new visits.new }
{
    let g = Network::new(starts, neighbours, weights);
    eager::answer(&g, points, q, k, limit, scratch, answers, visits).into()
}

// The short query. Lent: the network, the points, scratch of 12 × n entries (Ask 5), and an array for n answers. Returned and left: as eager with k =
// 2 and limit 65,535, which no count exceeds, but for the visits: it lists none (Ask 4). Document 01: 'The short query: no k and no limit; eager with
// [..] limit 65,535.' Document 02 (Ask 10): 'The short query takes k = 2 from now on.'
pub fn overlap_short_query(
    starts: &[u32],
    neighbours: &[u32],
    weights: &[u32],
    points: &[u8],
    q: u32,
    scratch: &mut [u32],
    answers: &mut [u32],
) -> Listing
    ensures { let g = network starts.now neighbours.now weights.now in
        let outcome = short_outcome g points.now q scratch.old answers.old in
        SearchExported outcome result scratch.new answers.new }
{
    let g = Network::new(starts, neighbours, weights);
    short_query::answer(&g, points, q, scratch, answers).into()
}

// Lazy. Lent: the network, the points, scratch of S entries with m = k, and an array for n answers. Returned: number 0 and the length of the list,
// or 1 to 5, 6, 7, 9, 10. Accepted: the answers are the listed points, ascending, then the old entries, and the whole scratch is zero. Refused:
// nothing is written. Document 01: 'Lazy (000, 3.3) and lazy-EP (000, 4.2): the list.'
pub fn overlap_lazy(
    starts: &[u32],
    neighbours: &[u32],
    weights: &[u32],
    points: &[u8],
    q: u32,
    k: u32,
    scratch: &mut [u32],
    answers: &mut [u32],
) -> Listing
    ensures { let g = network starts.now neighbours.now weights.now in
        let outcome = lazy_outcome g points.now q k scratch.old answers.old in
        SearchExported outcome result scratch.new answers.new }
{
    let g = Network::new(starts, neighbours, weights);
    lazy::answer(Method::Lazy, &g, points, q, k, scratch, answers).into()
}

// Lazy with extended pruning. Lent, returned and left: as lazy.
pub fn overlap_lazy_ep(
    starts: &[u32],
    neighbours: &[u32],
    weights: &[u32],
    points: &[u8],
    q: u32,
    k: u32,
    scratch: &mut [u32],
    answers: &mut [u32],
) -> Listing
    ensures { let g = network starts.now neighbours.now weights.now in
        let outcome = lazy_outcome g points.now q k scratch.old answers.old in
        SearchExported outcome result scratch.new answers.new }
{
    let g = Network::new(starts, neighbours, weights);
    lazy::answer(Method::LazyEp, &g, points, q, k, scratch, answers).into()
}

// Build. Lent: the network, the points, scratch of S entries with m = K, and both table arrays of any contents. Returned: 0, or 1 to 5, 6, 8, 10.
// Accepted: both arrays are the table of the points, and the whole scratch is zero. Refused: nothing is written. Document 01: 'Build fills it.'
pub fn overlap_build(
    starts: &[u32],
    neighbours: &[u32],
    weights: &[u32],
    points: &[u8],
    places: u32,
    scratch: &mut [u32],
    ids: &mut [u32],
    distances: &mut [u32],
) -> u32
    ensures { let g = network starts.now neighbours.now weights.now in
        record { number = result; scratch = scratch.new; ids = ids.new; distances = distances.new }
        ≡ build_outcome g points.now places scratch.old ids.old distances.old }
{
    let g = Network::new(starts, neighbours, weights);
    number(build::answer(&g, points, places, scratch, ids, distances))
}

// Insert. Lent: the network, the points, scratch of S entries with m = K, and both table arrays. Returned: number 0 and how many rows changed, or 1
// to 5, 6, 7, 8, 10, 11. Accepted: the node has one locker more, the table of the points before becomes the table of the points after, and the
// whole scratch is zero; of a table that the check would deny nothing is said but its length and that the count is at most n. Refused: nothing is
// written. Document 01 with Ask 8: 'Insert adds one, remove takes one'; 'each brings the table up to date and returns the number of rows whose
// contents differ before and after.'
pub fn overlap_insert(
    starts: &[u32],
    neighbours: &[u32],
    weights: &[u32],
    points: &mut [u8],
    node: u32,
    places: u32,
    scratch: &mut [u32],
    ids: &mut [u32],
    distances: &mut [u32],
) -> Update
    ensures { let g = network starts.now neighbours.now weights.now in
        let old : Arrays = record { points = points.old; scratch = scratch.old; ids = ids.old; distances = distances.old } in
        let new : Arrays = record { points = points.new; scratch = scratch.new; ids = ids.new; distances = distances.new } in
        ChangeExported Insert g node places old new result }
{
    let g = Network::new(starts, neighbours, weights);
    updated::answer(
        Kind::Insert,
        &g,
        points,
        node,
        places,
        scratch,
        ids,
        distances,
    )
    .into()
}

// Remove. Lent, returned and left: as insert, but the node has one locker less.
pub fn overlap_remove(
    starts: &[u32],
    neighbours: &[u32],
    weights: &[u32],
    points: &mut [u8],
    node: u32,
    places: u32,
    scratch: &mut [u32],
    ids: &mut [u32],
    distances: &mut [u32],
) -> Update
    ensures { let g = network starts.now neighbours.now weights.now in
        let old : Arrays = record { points = points.old; scratch = scratch.old; ids = ids.old; distances = distances.old } in
        let new : Arrays = record { points = points.new; scratch = scratch.new; ids = ids.new; distances = distances.new } in
        ChangeExported Remove g node places old new result }
{
    let g = Network::new(starts, neighbours, weights);
    updated::answer(
        Kind::Remove,
        &g,
        points,
        node,
        places,
        scratch,
        ids,
        distances,
    )
    .into()
}

// The table check. Lent: the network, the points and both table arrays of any contents, and nothing is written. Returned: number 0 and yes or no, or
// 1 to 5, 6, 8. Document 01: 'Table check: yes exactly when both arrays are the table that build would write, whoever filled them.'
pub fn overlap_table_check(
    starts: &[u32],
    neighbours: &[u32],
    weights: &[u32],
    points: &[u8],
    places: u32,
    ids: &[u32],
    distances: &[u32],
) -> Verdict
    ensures { let g = network starts.now neighbours.now weights.now in
        result ≡ rule_verdict (table_check_answer g points.now places ids.now distances.now) }
{
    let g = Network::new(starts, neighbours, weights);
    table_check::answer(&g, points, places, ids, distances).into()
}

// The table query. Lent: the network, the points, both table arrays, scratch of S entries with m = k, and an array for n answers. Returned: number 0
// and the length of the list, or 1 to 5, 6, 7, 8, 9, 10. Accepted: the answers are the listed points, ascending, then the old entries, and the whole
// scratch is zero; with a table that the check would deny they are some points, ascending. Refused: nothing is written. Document 01: 'Table query
// (eager-M): the list, k from 1 to K - 1, since a point's row spends one place on itself.'
pub fn overlap_table_query(
    starts: &[u32],
    neighbours: &[u32],
    weights: &[u32],
    points: &[u8],
    q: u32,
    k: u32,
    places: u32,
    ids: &[u32],
    distances: &[u32],
    scratch: &mut [u32],
    answers: &mut [u32],
) -> Listing
    ensures { let g = network starts.now neighbours.now weights.now in
        let lent : QueryArrays = record { ids = ids.now; distances = distances.now; scratch = scratch.old; answers = answers.old } in
        TableQueryExported g points.now q k places lent scratch.new answers.new result }
{
    let g = Network::new(starts, neighbours, weights);
    table_query::answer(&g, points, q, k, places, ids, distances, scratch, answers).into()
}

// The households that a site wins. Lent: the network, households and sites, both laid out as points, scratch of S entries with m = k, and an array for n
// answers. Returned: number 0 and the length of the list, or 1 to 5, 6 of the households, 6 of the sites, 7, 9, 10. Accepted: the answers are the listed
// nodes, ascending, then the old entries, and the whole scratch is zero. Refused: nothing is written. Document 02: 'A household is listed for q exactly if it
// can be reached and fewer than k sites are strictly nearer to it than q (document 000, 5.1).' q is any node.
pub fn overlap_households(
    starts: &[u32],
    neighbours: &[u32],
    weights: &[u32],
    households: &[u8],
    sites: &[u8],
    q: u32,
    k: u32,
    scratch: &mut [u32],
    answers: &mut [u32],
) -> Listing
    ensures { let g = network starts.now neighbours.now weights.now in
        let outcome = households_outcome g households.now sites.now q k scratch.old answers.old in
        SearchExported outcome result scratch.new answers.new }
{
    let g = Network::new(starts, neighbours, weights);
    list::answer(&g, households, sites, q, k, scratch, answers).into()
}

// The sheet. Lent: the network, households and sites, both laid out as points, scratch of S entries with m = 1, and an array for n answers. Returned: 0, or 1
// to 5, 6 of the households, 6 of the sites, 10. Accepted: the answers are the n entries, then the old ones, and the whole scratch is zero. Refused: nothing
// is written. Document 02: 'A sheet call writes, for each node, the length of the list of a site there, 0 without a site' (Ask 1); 'the sheet now names 1
// itself' (Ask 10), for the k of these lists. 'A sheet's length counts each household on a listed node' (Ask 8).
pub fn overlap_sheet(
    starts: &[u32],
    neighbours: &[u32],
    weights: &[u32],
    households: &[u8],
    sites: &[u8],
    scratch: &mut [u32],
    answers: &mut [u32],
) -> u32
    ensures { let g = network starts.now neighbours.now weights.now in
        record { number = result; scratch = scratch.new; answers = answers.new }
        ≡ sheet_outcome g households.now sites.now scratch.old answers.old }
{
    let g = Network::new(starts, neighbours, weights);
    number(entries::answer(&g, households, sites, scratch, answers))
}

// The lockers that a route touches. Lent: the network, points, the route as a list of nodes, of any length, scratch of S entries with m = k, and an array for
// n answers. Returned: number 0 and the length of the list, or 1 to 5, 6, 7 of each node of the route, 9, 10, 14. Accepted: the answers are the listed nodes,
// ascending, then the old entries, and the whole scratch is zero. Refused: nothing is written. Document 02: 'Listed is the union of what the single nodes
// receive, without the points that stand on the route itself.'
pub fn overlap_route(
    starts: &[u32],
    neighbours: &[u32],
    weights: &[u32],
    points: &[u8],
    route: &[u32],
    k: u32,
    scratch: &mut [u32],
    answers: &mut [u32],
) -> Listing
    ensures { let g = network starts.now neighbours.now weights.now in
        let outcome = route_outcome g points.now route.now k scratch.old answers.old in
        SearchExported outcome result scratch.new answers.new }
{
    let g = Network::new(starts, neighbours, weights);
    call::answer(&g, points, route, k, scratch, answers).into()
}

// The number of the nearer row. Lent: the network, the junction, one K, and both tables of any contents, and nothing is written. Returned: 0, or 1 to 5, 7,
// 8 of the own table, 8 of the rival's. Document 02: 'a second call on the same inputs gives the number'; 'Checks: [..] 8 each table, in the order lent.'
pub fn overlap_nearer_row_number(
    starts: &[u32],
    neighbours: &[u32],
    weights: &[u32],
    junction: u32,
    places: u32,
    own_ids: &[u32],
    own_distances: &[u32],
    rival_ids: &[u32],
    rival_distances: &[u32],
) -> u32
    ensures { let g = network starts.now neighbours.now weights.now in
        result ≡ row_number g junction places own_ids.now own_distances.now rival_ids.now rival_distances.now }
{
    let g = Network::new(starts, neighbours, weights);
    number(nearer_row::check(
        &g,
        junction,
        places,
        own_ids,
        own_distances,
        rival_ids,
        rival_distances,
    ))
}

// The nearer row, as C has it. Lent: as for the number. Returned: number 0, and which K entries the row's distances are: of the own distances (rival 0) or
// of the rival's (rival 1), from junction × K on; or 1 to 5, 7, 8 (own), 8 (rival's), and the rest 0. Accepted: those entries lie in their array, and are
// what `overlap_nearer_row` returns. Refused: they are none, its empty part. Document 02: 'of an own table and a rival's, the call hands back the row
// whose first entry is nearer, the own one when equal.'
pub fn overlap_nearer_row_part(
    starts: &[u32],
    neighbours: &[u32],
    weights: &[u32],
    junction: u32,
    places: u32,
    own_ids: &[u32],
    own_distances: &[u32],
    rival_ids: &[u32],
    rival_distances: &[u32],
) -> RowPart
    ensures { let g = network starts.now neighbours.now weights.now in
        PartReturned g junction places own_ids.now own_distances.now rival_ids.now rival_distances.now result }
{
    let g = Network::new(starts, neighbours, weights);
    nearer_row::part(
        &g,
        junction,
        places,
        own_ids,
        own_distances,
        rival_ids,
        rival_distances,
    )
}

// The nearer row, within Rattle: a returned reference does not cross to C. Lent: as for the number. Accepted: returned are the row's K distances, a part of
// the own distances or of the rival's, nothing copied. Refused: returned is an empty part. Document 02: 'of an own table and a rival's, the call hands back
// the row whose first entry is nearer, the own one when equal. [..] It returns the row's distances, on a refusal an empty part'.
pub fn overlap_nearer_row<'a>(
    starts: &[u32],
    neighbours: &[u32],
    weights: &[u32],
    junction: u32,
    places: u32,
    own_ids: &[u32],
    own_distances: &'a [u32],
    rival_ids: &[u32],
    rival_distances: &'a [u32],
) -> &'a [u32]
    ensures { let g = network starts.now neighbours.now weights.now in
        result.now ≡ row_outcome g junction places own_ids.now own_distances.now rival_ids.now rival_distances.now }
{
    let g = Network::new(starts, neighbours, weights);
    nearer_row::row(
        &g,
        junction,
        places,
        own_ids,
        own_distances,
        rival_ids,
        rival_distances,
    )
}
