// Network N of document 01, and each public call on it, with scratch for a k or K of 3, the largest here; eager, verify and the short query need less.
// Insert, remove and the table check are lent a table with K = 2. And what the programs on N share: what the calls answer, how they write it, its tables,
// and the refusals.
#![tactic(auto)]

use answers::{Changed, Eager, List, NearestList, Refused, Search, Side, YesNo, accepted};
use overlap::{Listing, RowPart};
use table_rows::Table;

pub mod answers;
pub mod refusals;
pub mod table_rows;
pub mod text;

// Six nodes, roads 0-1 of 4, 0-3 of 5, 1-2 of 3, 2-4 of 7, 3-4 of 3; node 5 alone.
pub const NODES: usize = 6;

pub const STARTS: [u32; 7] = [0, 2, 4, 6, 8, 10, 10];

pub const NEIGHBOURS: [u32; 10] = [1, 3, 0, 2, 1, 4, 0, 4, 2, 3];

pub const WEIGHTS: [u32; 10] = [4, 5, 4, 3, 3, 7, 5, 3, 7, 3];

// Lockers at 2, 4 and 5.
pub const POINTS: [u8; NODES] = [0, 0, 1, 0, 1, 1];

// Households: one at 0, two at 1, one at 3, three at 5; and a rival's lockers at 0, 2 and 3.
pub const HOUSEHOLDS: [u8; NODES] = [1, 2, 0, 1, 0, 3];

pub const RIVAL_POINTS: [u8; NODES] = [1, 0, 1, 1, 0, 0];

// 16 × n + 8 × (A + n) × m with n = 6, A = 10 and m = 3.
pub const SCRATCH: usize = 480;

// 12 × n, for eager, verify and the short query with any k.
pub const EAGER_SCRATCH: usize = 72;

// A limit that no count exceeds.
pub const NO_LIMIT: u32 = 65535;

pub fn check() -> Result<(), Refused> {
    accepted(overlap::overlap_network_check(&STARTS, &NEIGHBOURS, &WEIGHTS))
}

// An entry for each node.
fn entries<F: FnOnce(&mut [u32; SCRATCH], &mut [u32; NODES]) -> u32>(
    call: F,
) -> Result<List, Refused>
    requires { F.IsAlwaysCallable call }
{
    let mut entries = [0; NODES];
    accepted(call(&mut [0; SCRATCH], &mut entries))?;
    Ok(List {
        entries,
        length: NODES,
    })
}

pub fn distances(node: u32) -> Result<List, Refused> {
    entries(|scratch, answers| {
        overlap::overlap_distances(&STARTS, &NEIGHBOURS, &WEIGHTS, node, scratch, answers)
    })
}

// The lockers of N are the sites.
pub fn sheet(households: &[u8; NODES]) -> Result<List, Refused> {
    entries(|scratch, answers| {
        overlap::overlap_sheet(
            &STARTS,
            &NEIGHBOURS,
            &WEIGHTS,
            households,
            &POINTS,
            scratch,
            answers,
        )
    })
}

pub fn nearest(node: u32, e: u32, k: u32) -> Result<NearestList, Refused> {
    let mut ids = [0; 3];
    let mut distances = [0; 3];
    let listing = overlap::overlap_nearest(
        &STARTS,
        &NEIGHBOURS,
        &WEIGHTS,
        &POINTS,
        node,
        e,
        k,
        &mut [0; SCRATCH],
        &mut ids,
        &mut distances,
    );
    accepted(listing.number)?;
    Ok(NearestList {
        ids,
        distances,
        length: listing.length,
    })
}

pub fn verify(p: u32, q: u32, k: u32) -> Result<YesNo, Refused> {
    YesNo::try_from(overlap::overlap_verify(
        &STARTS,
        &NEIGHBOURS,
        &WEIGHTS,
        &POINTS,
        p,
        q,
        k,
        &mut [0; EAGER_SCRATCH],
    ))
}

// A list of nodes with the count of nodes expanded, which is 0 but for eager and the short query.
fn counted<F: FnOnce(&mut [u32; SCRATCH], &mut [u32; NODES]) -> Listing>(
    call: F,
) -> Result<Search, Refused>
    requires { F.IsAlwaysCallable call }
{
    let mut entries = [0; NODES];
    let listing = call(&mut [0; SCRATCH], &mut entries);
    accepted(listing.number)?;
    Ok(Search {
        list: List {
            entries,
            length: listing.length,
        },
        expanded: listing.count,
    })
}

// Eager also serves the cases with other weights or no points.
pub fn eager(
    weights: &[u32; 10],
    points: &[u8; NODES],
    q: u32,
    k: u32,
    limit: u32,
) -> Result<Eager, Refused> {
    let mut visits = [0; NODES];
    let search = counted(|scratch, answers| {
        overlap::overlap_eager(
            &STARTS,
            &NEIGHBOURS,
            weights,
            points,
            q,
            k,
            limit,
            &mut scratch[..EAGER_SCRATCH],
            answers,
            &mut visits,
        )
    })?;
    Ok(Eager {
        search,
        visits: List {
            entries: visits,
            length: search.expanded as usize,
        },
    })
}

pub fn short_query(q: u32) -> Result<Search, Refused> {
    counted(|scratch, answers| {
        overlap::overlap_short_query(
            &STARTS,
            &NEIGHBOURS,
            &WEIGHTS,
            &POINTS,
            q,
            &mut scratch[..EAGER_SCRATCH],
            answers,
        )
    })
}

// A list of nodes alone.
fn listed<F: FnOnce(&mut [u32; SCRATCH], &mut [u32; NODES]) -> Listing>(
    call: F,
) -> Result<List, Refused>
    requires { F.IsAlwaysCallable call }
{
    Ok(counted(call)?.list)
}

pub fn lazy(q: u32, k: u32) -> Result<List, Refused> {
    listed(|scratch, answers| {
        overlap::overlap_lazy(
            &STARTS,
            &NEIGHBOURS,
            &WEIGHTS,
            &POINTS,
            q,
            k,
            scratch,
            answers,
        )
    })
}

pub fn lazy_ep(q: u32, k: u32) -> Result<List, Refused> {
    listed(|scratch, answers| {
        overlap::overlap_lazy_ep(
            &STARTS,
            &NEIGHBOURS,
            &WEIGHTS,
            &POINTS,
            q,
            k,
            scratch,
            answers,
        )
    })
}

// The lockers of N are the sites.
pub fn households(q: u32, k: u32) -> Result<List, Refused> {
    listed(|scratch, answers| {
        overlap::overlap_households(
            &STARTS,
            &NEIGHBOURS,
            &WEIGHTS,
            &HOUSEHOLDS,
            &POINTS,
            q,
            k,
            scratch,
            answers,
        )
    })
}

pub fn route(route: &[u32], k: u32) -> Result<List, Refused> {
    listed(|scratch, answers| {
        overlap::overlap_route(
            &STARTS,
            &NEIGHBOURS,
            &WEIGHTS,
            &POINTS,
            route,
            k,
            scratch,
            answers,
        )
    })
}

// By a table in arrays of any length; `table_query` is lent one that has both of a length.
pub fn table_query_of(
    q: u32,
    k: u32,
    places: u32,
    ids: &[u32],
    distances: &[u32],
) -> Result<List, Refused> {
    listed(|scratch, answers| {
        overlap::overlap_table_query(
            &STARTS,
            &NEIGHBOURS,
            &WEIGHTS,
            &POINTS,
            q,
            k,
            places,
            ids,
            distances,
            scratch,
            answers,
        )
    })
}

pub fn table_query<const N: usize>(q: u32, k: u32, table: &Table<N>) -> Result<List, Refused> {
    table_query_of(q, k, table.places, &table.ids, &table.distances)
}

// Into arrays of any length.
pub fn build_of(
    points: &[u8; NODES],
    places: u32,
    ids: &mut [u32],
    distances: &mut [u32],
) -> Result<(), Refused> {
    accepted(overlap::overlap_build(
        &STARTS,
        &NEIGHBOURS,
        &WEIGHTS,
        points,
        places,
        &mut [0; SCRATCH],
        ids,
        distances,
    ))
}

// The table of the points with K = places, where N = 6 × K.
pub fn build<const N: usize>(points: &[u8; NODES], places: u32) -> Result<Table<N>, Refused> {
    let mut table = Table::new(places);
    build_of(points, places, &mut table.ids, &mut table.distances)?;
    Ok(table)
}

// Insert and remove stand apart, and so do the three calls of the nearer row: one function that takes the call would write out its nine types. `build_of`,
// `table_query_of`, `nearer_row_of`, `check_nearer_row_of` and `nearer_row_part` take a table as two slices, of any lengths.
pub fn insert(
    points: &mut [u8; NODES],
    node: u32,
    table: &mut Table<12>,
) -> Result<Changed, Refused> {
    Changed::try_from(overlap::overlap_insert(
        &STARTS,
        &NEIGHBOURS,
        &WEIGHTS,
        points,
        node,
        table.places,
        &mut [0; SCRATCH],
        &mut table.ids,
        &mut table.distances,
    ))
}

pub fn remove(
    points: &mut [u8; NODES],
    node: u32,
    table: &mut Table<12>,
) -> Result<Changed, Refused> {
    Changed::try_from(overlap::overlap_remove(
        &STARTS,
        &NEIGHBOURS,
        &WEIGHTS,
        points,
        node,
        table.places,
        &mut [0; SCRATCH],
        &mut table.ids,
        &mut table.distances,
    ))
}

pub fn table_check(points: &[u8; NODES], table: &Table<12>) -> Result<YesNo, Refused> {
    YesNo::try_from(overlap::overlap_table_check(
        &STARTS,
        &NEIGHBOURS,
        &WEIGHTS,
        points,
        table.places,
        &table.ids,
        &table.distances,
    ))
}

// Of two tables in arrays of any length, the row whose first entry is nearer.
pub fn nearer_row_of<'a>(
    junction: u32,
    places: u32,
    own_ids: &[u32],
    own_distances: &'a [u32],
    rival_ids: &[u32],
    rival_distances: &'a [u32],
) -> &'a [u32] {
    overlap::overlap_nearer_row(
        &STARTS,
        &NEIGHBOURS,
        &WEIGHTS,
        junction,
        places,
        own_ids,
        own_distances,
        rival_ids,
        rival_distances,
    )
}

// Of two tables with K = 2.
pub fn nearer_row<'a>(junction: u32, own: &'a Table<12>, rival: &'a Table<12>) -> &'a [u32] {
    nearer_row_of(
        junction,
        own.places,
        &own.ids,
        &own.distances,
        &rival.ids,
        &rival.distances,
    )
}

// Whether that call is refused.
pub fn check_nearer_row_of(
    junction: u32,
    places: u32,
    own_ids: &[u32],
    own_distances: &[u32],
    rival_ids: &[u32],
    rival_distances: &[u32],
) -> Result<(), Refused> {
    accepted(overlap::overlap_nearer_row_number(
        &STARTS,
        &NEIGHBOURS,
        &WEIGHTS,
        junction,
        places,
        own_ids,
        own_distances,
        rival_ids,
        rival_distances,
    ))
}

pub fn check_nearer_row(junction: u32, own: &Table<12>, rival: &Table<12>) -> Result<(), Refused> {
    check_nearer_row_of(
        junction,
        own.places,
        &own.ids,
        &own.distances,
        &rival.ids,
        &rival.distances,
    )
}

// Which part of which array it is: overlap.h's struct.
pub fn nearer_row_part(
    junction: u32,
    places: u32,
    own_ids: &[u32],
    own_distances: &[u32],
    rival_ids: &[u32],
    rival_distances: &[u32],
) -> RowPart {
    overlap::overlap_nearer_row_part(
        &STARTS,
        &NEIGHBOURS,
        &WEIGHTS,
        junction,
        places,
        own_ids,
        own_distances,
        rival_ids,
        rival_distances,
    )
}

// Whose row it is.
pub fn nearer_side(junction: u32, own: &Table<12>, rival: &Table<12>) -> Result<Side, Refused> {
    Side::try_from(nearer_row_part(
        junction,
        own.places,
        &own.ids,
        &own.distances,
        &rival.ids,
        &rival.distances,
    ))
}
