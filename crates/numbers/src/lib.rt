// The conditions of each call: the first that is met, or none. Document 01, 'Numbers of refusal'. A table's arrays are passed for their lengths, and K
// before it is known to fit, so there is no `Table` (rows) yet.
#![tactic(auto)]

ghost use Rattle.std.specs.Prelude.{◌≡◌};
ghost use Rattle.network.specs.Refusal.{number};
ghost use Rattle.numbers.specs.Numbers.{network_points_number, site_number, query_number, distances_number, nearest_number, verify_number, search_number, limited_number, eager_number, table_check_number, build_number, table_node_number, change_number, table_query_number};

use conditions::kind::Kind;
use network::{Network, Refusal};

// What every call with points tests first: 1 to 5, 6.
#[tactic(auto, using(conditions::proofs::NotMet::first_met, crate::proofs::Ready::network_passed), unfolding(crate::specs::Numbers::network_points_number))]
pub fn check_network_points(g: &Network<'_>, points: &[u8]) -> Result<(), Refusal>
    ensures { number result ≡ network_points_number g.now points.now }
{
    network::check::check(g)?;
    conditions::check_points(g.nodes(), points)
}

// The same, and 7: what the calls with points and a node test first.
#[tactic(auto, using(conditions::proofs::NotMet::first_met, crate::proofs::Ready::points_passed), unfolding(crate::specs::Numbers::site_number))]
fn check_site(g: &Network<'_>, points: &[u8], node: u32) -> Result<(), Refusal>
    ensures { number result ≡ site_number g.now points.now node }
{
    check_network_points(g, points)?;
    conditions::check_node(g.nodes(), node)
}

// What nearest, lazy and lazy-EP test first: 1 to 5, 6, 7, 9, and 10 of scratch.
#[tactic(auto, using(conditions::proofs::NotMet::first_met, crate::proofs::Ready::site_passed, crate::proofs::Ready::k_passed), unfolding(crate::specs::Numbers::query_number))]
fn check_query(
    g: &Network<'_>,
    points: &[u8],
    node: u32,
    k: u32,
    scratch: &[u32],
) -> Result<(), Refusal>
    ensures { number result ≡ query_number g.now points.now node k scratch.now }
{
    check_site(g, points, node)?;
    conditions::check_k(k)?;
    conditions::check_scratch(g.nodes(), g.arcs(), k, scratch.len())
}

// Distances: 1 to 5, 7, 10.
#[tactic(auto, using(conditions::proofs::NotMet::first_met, crate::proofs::Ready::network_passed), unfolding(crate::specs::Numbers::distances_number))]
pub fn check_distances(
    g: &Network<'_>,
    node: u32,
    scratch: &[u32],
    answers: &[u32],
) -> Result<(), Refusal>
    ensures { number result ≡ distances_number g.now node scratch.now answers.now }
{
    network::check::check(g)?;
    let n = g.nodes();
    conditions::check_node(n, node)?;
    conditions::check_scratch(n, g.arcs(), 1, scratch.len())?;
    conditions::check_length(answers.len(), n)
}

// Nearest: 1 to 5, 6, 7, 9, 10.
#[tactic(auto, using(conditions::proofs::NotMet::first_met), unfolding(crate::specs::Numbers::nearest_number))]
pub fn check_nearest(
    g: &Network<'_>,
    points: &[u8],
    node: u32,
    k: u32,
    scratch: &[u32],
    ids: &[u32],
    distances: &[u32],
) -> Result<(), Refusal>
    ensures { number result ≡ nearest_number g.now points.now node k scratch.now ids.now distances.now }
{
    check_query(g, points, node, k, scratch)?;
    conditions::check_length(ids.len(), k as usize)?;
    conditions::check_length(distances.len(), k as usize)
}

// Verify: 1 to 5, 6, 7, 9, 10, 11.
#[tactic(auto, using(conditions::proofs::NotMet::first_met, crate::proofs::Ready::site_passed), unfolding(crate::specs::Numbers::verify_number))]
pub fn check_verify(
    g: &Network<'_>,
    points: &[u8],
    p: u32,
    q: u32,
    k: u32,
    scratch: &[u32],
) -> Result<(), Refusal>
    ensures { number result ≡ verify_number g.now points.now p q k scratch.now }
{
    check_site(g, points, p)?;
    let n = g.nodes();
    conditions::check_node(n, q)?;
    conditions::check_k(k)?;
    conditions::check_eager_scratch(n, scratch.len())?;
    conditions::check_locker(points, p)
}

// The short query, and eager but for its visits and 12: 1 to 5, 6, 7, 9, 10.
#[tactic(auto, using(conditions::proofs::NotMet::first_met, crate::proofs::Ready::site_passed), unfolding(crate::specs::Numbers::limited_number))]
pub fn check_limited(
    g: &Network<'_>,
    points: &[u8],
    q: u32,
    k: u32,
    scratch: &[u32],
    answers: &[u32],
) -> Result<(), Refusal>
    ensures { number result ≡ limited_number g.now points.now q k scratch.now answers.now }
{
    check_site(g, points, q)?;
    conditions::check_k(k)?;
    let n = g.nodes();
    conditions::check_eager_scratch(n, scratch.len())?;
    conditions::check_length(answers.len(), n)
}

// Eager but for 12: 10 of its visits too (Ask 4).
#[tactic(auto, using(conditions::proofs::NotMet::first_met, crate::proofs::Ready::limited_passed), unfolding(crate::specs::Numbers::eager_number))]
pub fn check_eager(
    g: &Network<'_>,
    points: &[u8],
    q: u32,
    k: u32,
    scratch: &[u32],
    answers: &[u32],
    visits: &[u32],
) -> Result<(), Refusal>
    ensures { number result ≡ eager_number g.now points.now q k scratch.now answers.now visits.now }
{
    check_limited(g, points, q, k, scratch, answers)?;
    conditions::check_length(visits.len(), g.nodes())
}

// Lazy and lazy-EP: 1 to 5, 6, 7, 9, 10.
#[tactic(auto, using(conditions::proofs::NotMet::first_met, crate::proofs::Ready::query_passed), unfolding(crate::specs::Numbers::search_number))]
pub fn check_search(
    g: &Network<'_>,
    points: &[u8],
    q: u32,
    k: u32,
    scratch: &[u32],
    answers: &[u32],
) -> Result<(), Refusal>
    ensures { number result ≡ search_number g.now points.now q k scratch.now answers.now }
{
    check_query(g, points, q, k, scratch)?;
    conditions::check_length(answers.len(), g.nodes())
}

// The table check, and build first: 1 to 5, 6, 8.
#[tactic(auto, using(conditions::proofs::NotMet::first_met, crate::proofs::Ready::points_passed), unfolding(crate::specs::Numbers::table_check_number))]
pub fn check_table_arrays(
    g: &Network<'_>,
    points: &[u8],
    places: u32,
    ids: &[u32],
    distances: &[u32],
) -> Result<(), Refusal>
    ensures { number result ≡ table_check_number g.now points.now places ids.now distances.now }
{
    check_network_points(g, points)?;
    conditions::check_table(g.nodes(), places, ids.len(), distances.len())
}

// Build: 1 to 5, 6, 8, 10.
#[tactic(auto, using(conditions::proofs::NotMet::first_met, crate::proofs::Ready::table_check_passed), unfolding(crate::specs::Numbers::build_number))]
pub fn check_build(
    g: &Network<'_>,
    points: &[u8],
    places: u32,
    scratch: &[u32],
    ids: &[u32],
    distances: &[u32],
) -> Result<(), Refusal>
    ensures { number result ≡ build_number g.now points.now places scratch.now ids.now distances.now }
{
    check_table_arrays(g, points, places, ids, distances)?;
    conditions::check_scratch(g.nodes(), g.arcs(), places, scratch.len())
}

// What the calls with a node and a table test first: 1 to 5, 6, 7, 8.
#[tactic(auto, using(conditions::proofs::NotMet::first_met, crate::proofs::Ready::site_passed), unfolding(crate::specs::Numbers::table_node_number))]
fn check_table_node(
    g: &Network<'_>,
    points: &[u8],
    node: u32,
    places: u32,
    ids: &[u32],
    distances: &[u32],
) -> Result<(), Refusal>
    ensures { number result ≡ table_node_number g.now points.now node places ids.now distances.now }
{
    check_site(g, points, node)?;
    conditions::check_table(g.nodes(), places, ids.len(), distances.len())
}

// Insert and remove: 1 to 5, 6, 7, 8, 10, 11.
#[tactic(auto, using(conditions::proofs::NotMet::first_met, crate::proofs::Ready::table_node_passed), unfolding(crate::specs::Numbers::change_number))]
pub fn check_change(
    kind: Kind,
    g: &Network<'_>,
    points: &[u8],
    node: u32,
    places: u32,
    scratch: &[u32],
    ids: &[u32],
    distances: &[u32],
) -> Result<(), Refusal>
    ensures { number result ≡ change_number kind g.now points.now node places scratch.now ids.now distances.now }
{
    check_table_node(g, points, node, places, ids, distances)?;
    conditions::check_scratch(g.nodes(), g.arcs(), places, scratch.len())?;
    match kind {
        Kind::Insert => conditions::check_room(points, node),
        Kind::Remove => conditions::check_locker(points, node),
    }
}

// The table query: 1 to 5, 6, 7, 8, 9, 10.
#[tactic(auto, using(conditions::proofs::NotMet::first_met, crate::proofs::Ready::table_node_passed, crate::proofs::Ready::table_k_passed), unfolding(crate::specs::Numbers::table_query_number))]
pub fn check_table_query(
    g: &Network<'_>,
    points: &[u8],
    q: u32,
    k: u32,
    places: u32,
    ids: &[u32],
    distances: &[u32],
    scratch: &[u32],
    answers: &[u32],
) -> Result<(), Refusal>
    ensures { number result ≡ table_query_number g.now points.now q k places ids.now distances.now scratch.now answers.now }
{
    check_table_node(g, points, q, places, ids, distances)?;
    conditions::check_table_k(k, places)?;
    let n = g.nodes();
    conditions::check_scratch(n, g.arcs(), k, scratch.len())?;
    conditions::check_length(answers.len(), n)
}
