// The table query, eager-M: source 000, section 4.1. Eager's expansion from the site, with the rows of the table in place of the nearest points.
// Document 01, 'The table': 'the list, k from 1 to K - 1, since a point's row spends one place on itself'. A lent table may hold anything: an id is
// compared with n and the marks before it is used, and sums are made in 64 bits. 'A point on q isn't listed' (Ask 6): in the table of the points, no row
// has it among the first k that are nearer than the label. g, points, table, q and k stay parameters, as in the other searches: a struct of five would be
// made for this one, and each clause would name its fields.
ghost use Rattle.std.specs.Prelude.{◌≡◌, ◌+◌, leb};
ghost use Rattle.query.specs.Query.{CanDecide, Decided, CanVerifyWord, WordVerified, CanVerifyRow, RowVerified, CanLookByRow, LookedByRow, CanExploreQuery, QueryExplored, CanQuery, QueryLeft};

use expansion::verify::Site;
use expansion::{step, verify};
use network::Network;
use rows::rows::row_of;
use rows::table::{Row, Table};
use searches::flags;

// Whether a label and a distance are together no more than a distance.
fn is_within(label: u32, far: u32, last: u32) -> bool
    ensures { result ≡ leb (label + far) last }
{
    u64::from(label) + u64::from(far) <= u64::from(last)
}

// Whether a point is listed: at once where its k-th other point is no nearer than the way over the node, else by an expansion from it.
fn decide(
    g: &Network<'_>,
    points: &[u8],
    others: &[u32],
    f: &mut [u32],
    p: u32,
    label: u32,
    far: u32,
    q: u32,
    k: usize,
) -> bool
    requires { CanDecide g.now points.now others.now f.old p q k }
    ensures { Decided g.now points.now others.now p q k (label + far) f.old f.new result }
{
    if is_within(label, far, others[k - 1]) {
        return true;
    }
    verify::verify(g, points, f, 2 * g.nodes(), p, Site::One { q }, k)
}

// Verifies a point, where the word is one and was not verified before, and flags it where it is listed.
fn verify_once(
    g: &Network<'_>,
    points: &[u8],
    table: Table<'_>,
    f: &mut [u32],
    p: u32,
    label: u32,
    far: u32,
    q: u32,
    k: usize,
)
    requires { CanVerifyWord g.now points.now table.distances.now q k table.places f.old }
    ensures { WordVerified g.now points.now table.entry.distances.now q k table.entry.places f.old f.new p (label + far) }
{
    let n = g.nodes();
    let at = p as usize;
    if n <= at || points[at] == 0 || f[at] != 0 {
        return;
    }
    f[at] = 1;
    // The first place of its row is its own.
    let others = &row_of(table.distances, at, table.places)[1..];
    if decide(g, points, others, f, p, label, far, q, k) {
        f[n + at] = 1;
    }
}

// Verifies the points of a row that are nearer than a label, cut after the first k. Returns how many places they fill.
fn verify_row(
    g: &Network<'_>,
    points: &[u8],
    row: Row<'_>,
    table: Table<'_>,
    f: &mut [u32],
    label: u32,
    q: u32,
    k: usize,
) -> usize
    requires { CanVerifyRow g.now points.now table.distances.now q k table.places f.old row.ids.now row.distances.now }
    ensures { RowVerified g.now points.now table.entry.distances.now q k table.entry.places f.old f.new row.entry.ids.now row.entry.distances.now label result }
{
    for i in 0..k {
        let far = row.distances[i];
        if label <= far {
            return i;
        }
        verify_once(g, points, table, f, row.ids[i], label, far, q, k);
    }
    k
}

// Looks at a node: its row holds the points that are nearer to it than its label. Returns how many of the first k places they fill.
fn look(
    g: &Network<'_>,
    points: &[u8],
    table: Table<'_>,
    f: &mut [u32],
    node: u32,
    label: u32,
    q: u32,
    k: usize,
) -> usize
    requires { CanLookByRow g.now points.now table.ids.now table.distances.now q k table.places f.old node }
    ensures { LookedByRow g.now points.now table.entry.ids.now table.entry.distances.now q k table.entry.places f.old f.new node label result }
{
    verify_row(g, points, table.row(node as usize), table, f, label, q, k)
}

// Settles nodes by rising distance from the site, and looks at each. Where fewer than k points are found, it follows the node's arcs.
fn explore(
    g: &Network<'_>,
    points: &[u8],
    table: Table<'_>,
    s: &mut [u32],
    b: usize,
    q: u32,
    k: usize,
)
    requires { CanExploreQuery g.now points.now table.ids.now table.distances.now s.old b q k table.places }
    ensures { QueryExplored g.now points.now table.entry.ids.now table.entry.distances.now q k table.entry.places s.old s.new }
{
    let n = g.nodes();
    step::start(s, b, n, q);
    let mut settled = 0;
    let mut len = 1;
    while let Some(taken) = step::next(s, b, n, len) {
        let f = &mut s[..b];
        let found = look(g, points, table, f, taken.node, taken.label, q, k);
        step::settle(s, b, n, settled, taken.node, taken.label);
        settled += 1;
        len = taken.left;
        if k <= found {
            continue;
        }
        len = step::open(g, s, b, taken.left, taken.node, taken.label);
    }
}

// The points that list a site, by the table of the points. All words are 0 before and after.
pub fn query(
    g: &Network<'_>,
    points: &[u8],
    table: Table<'_>,
    s: &mut [u32],
    answers: &mut [u32],
    q: u32,
    k: usize,
) -> usize
    requires { CanQuery g.now points.now table.ids.now table.distances.now s.old answers.old q k table.places }
    ensures { QueryLeft g.now points.now table.entry.ids.now table.entry.distances.now q k table.entry.places s.old s.new answers.old answers.new result }
{
    let n = g.nodes();
    let b = 6 * n;
    explore(g, points, table, s, b, q, k);
    let size = flags::write_found(s, answers, n, n);
    s.fill(0);
    size
}
