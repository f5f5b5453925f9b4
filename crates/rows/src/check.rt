// The table check: document 01, 'The table'. Each row agrees with the rows of its neighbours, arc by arc; sums are made in 64 bits, so that any
// contents can be tested. No scratch.
ghost use Rattle.std.specs.Prelude.{◌≡◌, ◌+◌, ◌-◌, ◌≤◌, ◌<◌, ltb, length, get_or};
ghost use Rattle.network.specs.Nearest.{key};
ghost use Rattle.network.specs.Network.{node_count};
ghost use Rattle.network.specs.Rows.{same_table};
ghost use Rattle.rows.specs.Flat.{place};
ghost use Rattle.rows.specs.Check.{among, row_holds, has_within, ends_by, is_placed, whole_before, repeats, begins, follows, bad_padding, bad_entry, bad_place, bad_row, HasRows, comes_from, comes_over, is_own, is_supported, unsupported, lacks_own, asks_for, asks, asks_from, unclosed, bad_node, CanRead, CanCheck};

use crate::order::precedes;
use crate::rows;
use crate::table::{Row, Table};
use network::Network;
use network::distance::Distance;
use network::points::lockers_at;

impl Row<'_> {
    // Whether the row holds p at distance d.
    fn holds(self, p: u32, d: u32) -> bool
        ensures { result ≡ row_holds self.entry.ids.now self.entry.distances.now p d }
    {
        self.ids
            .iter()
            .zip(self.distances)
            .any(|(&q, &e)| q == p && e == d)
    }

    // Whether the row holds p no farther than d.
    fn has_within(self, p: u32, d: u64) -> bool
        ensures { result ≡ has_within self.entry.ids.now self.entry.distances.now p d }
    {
        self.ids
            .iter()
            .zip(self.distances)
            .any(|(&q, &e)| q == p && u64::from(e) <= d)
    }

    // Whether the row is full, and its last entry does not come behind p at distance d.
    #[tactic(auto, unfolding(crate::specs::Check::ends_by))]
    fn ends_by(self, p: u32, d: u64) -> bool
        requires { 1 ≤ length self.ids.now }
        ensures { result ≡ ends_by self.entry.ids.now self.entry.distances.now p d }
    {
        let last = self.ids.len() - 1;
        let q = self.ids[last];
        q != Distance::NONE && !precedes(p, d, q, u64::from(self.distances[last]))
    }

    // Whether p at distance d asks for no place in the row: it stands there, no farther, or the row is full without it.
    #[tactic(auto, unfolding(crate::specs::Check::is_placed))]
    fn is_placed(self, p: u32, d: u64) -> bool
        requires { 1 ≤ length self.ids.now }
        ensures { result ≡ is_placed self.entry.ids.now self.entry.distances.now p d }
    {
        self.has_within(p, d) || self.ends_by(p, d)
    }

    // Whether p at distance d from a neighbour, no padding, asks for a place in the row over an arc of weight w.
    #[tactic(auto, unfolding(crate::specs::Check::asks_for))]
    fn asks_for(self, p: u32, d: u32, w: u32) -> bool
        requires { 1 ≤ length self.ids.now }
        ensures { result ≡ asks_for self.entry.ids.now self.entry.distances.now p (d + w) }
    {
        p != Distance::NONE && !self.is_placed(p, u64::from(d) + u64::from(w))
    }

    // Whether a place of a neighbour's row, over an arc of weight w, asks for a place in the row.
    fn asks(self, near: Row<'_>, w: u32) -> bool
        requires { 1 ≤ length self.ids.now }
        ensures { result ≡ asks self.entry.ids.now self.entry.distances.now near.entry.ids.now near.entry.distances.now w }
    {
        near.ids
            .iter()
            .zip(near.distances)
            .any(|(&p, &d)| self.asks_for(p, d, w))
    }

    // Whether the node of the place before j has all its lockers before j. A single one stands there.
    #[tactic(auto, unfolding(crate::specs::Check::whole_before))]
    fn whole_before(self, points: &[u8], j: usize) -> bool
        requires { (0 < j) × (j ≤ length self.ids.now) }
        ensures { result ≡ whole_before points.now self.entry.ids.now j }
    {
        let q = self.ids[j - 1];
        let all = lockers_at(points, q);
        all <= 1 || all <= rows::among(self.ids, q, j)
    }

    // Whether place j comes behind the place before it.
    fn rises(self, j: usize) -> bool
        requires { (0 < j) × (j < length self.ids.now) }
        ensures { result ≡ ltb (key (place self.entry.ids.now self.entry.distances.now (j - 1))) (key (place self.entry.ids.now self.entry.distances.now j)) }
    {
        let e = u64::from(self.distances[j - 1]);
        let d = u64::from(self.distances[j]);
        precedes(self.ids[j - 1], e, self.ids[j], d)
    }

    // Whether place j, of a node that is new, comes behind the place before it, whose node has all its lockers.
    #[tactic(auto, unfolding(crate::specs::Check::begins))]
    fn begins(self, points: &[u8], j: usize) -> bool
        requires { (0 < j) × (j < length self.ids.now) }
        ensures { result ≡ begins points.now self.entry.ids.now self.entry.distances.now j }
    {
        self.whole_before(points, j) && self.rises(j)
    }

    // Whether place j repeats the place before it.
    #[tactic(auto, unfolding(crate::specs::Check::repeats))]
    fn repeats(self, j: usize) -> bool
        requires { (0 < j) × (j < length self.ids.now) }
        ensures { result ≡ repeats self.entry.ids.now self.entry.distances.now j }
    {
        self.ids[j - 1] == self.ids[j] && self.distances[j - 1] == self.distances[j]
    }

    // Whether place j follows the place before it, and that is no padding: its node is new and begins, or it repeats; c is how often it stands before j.
    #[tactic(auto, unfolding(crate::specs::Check::follows))]
    fn follows(self, points: &[u8], j: usize, c: usize) -> bool
        requires { (0 < j) × (j < length self.ids.now) × (c ≡ among self.ids.now (get_or self.ids.now j 0) j) }
        ensures { result ≡ follows points.now self.entry.ids.now self.entry.distances.now j }
    {
        if self.ids[j - 1] == Distance::NONE {
            false
        } else if c == 0 {
            self.begins(points, j)
        } else {
            self.repeats(j)
        }
    }

    // Whether a place of padding is half padding, or comes behind a node that lacks a place.
    #[tactic(auto, unfolding(crate::specs::Check::bad_padding))]
    fn bad_padding(self, points: &[u8], j: usize) -> bool
        requires { j < length self.ids.now }
        ensures { result ≡ bad_padding points.now self.entry.ids.now self.entry.distances.now j }
    {
        self.distances[j] != Distance::NONE || (0 < j && !self.whole_before(points, j))
    }

    // Whether the node of a place has no locker for it, or the place does not follow the one before it.
    #[tactic(auto, unfolding(crate::specs::Check::bad_entry))]
    fn bad_entry(self, points: &[u8], j: usize) -> bool
        requires { j < length self.ids.now }
        ensures { result ≡ bad_entry points.now self.entry.ids.now self.entry.distances.now j }
    {
        let p = self.ids[j];
        let c = rows::among(self.ids, p, j);
        lockers_at(points, p) <= c || (0 < j && !self.follows(points, j, c))
    }

    // Whether something is wrong with place j.
    #[tactic(auto, unfolding(crate::specs::Check::bad_place))]
    fn bad_place(self, points: &[u8], j: usize) -> bool
        requires { j < length self.ids.now }
        ensures { result ≡ bad_place points.now self.entry.ids.now self.entry.distances.now j }
    {
        if self.ids[j] == Distance::NONE {
            self.bad_padding(points, j)
        } else {
            self.bad_entry(points, j)
        }
    }

    // Whether the row is not sorted by distance then node, a node for each of its lockers, or is not padded with NONE in both arrays.
    fn is_bad(self, points: &[u8]) -> bool
        ensures { result ≡ bad_row points.now self.entry.ids.now self.entry.distances.now }
    {
        (0..self.ids.len()).any(|j| self.bad_place(points, j))
    }

    // Whether node i is a point and its row, this one, lacks it.
    #[tactic(auto, unfolding(crate::specs::Check::lacks_own))]
    fn lacks_own(self, points: &[u8], i: u32) -> bool
        requires { i < length points.now }
        ensures { result ≡ lacks_own points.now self.entry.ids.now self.entry.distances.now i }
    {
        0 < points[i as usize] && !self.holds(i, 0)
    }
}

// Whether p at distance d is node i's own point.
#[tactic(auto, unfolding(crate::specs::Check::is_own))]
fn is_own(points: &[u8], i: usize, p: u32, d: u32) -> bool
    requires { i < length points.now }
    ensures { result ≡ is_own points.now i p d }
{
    p as usize == i && d == 0 && 0 < points[i]
}

impl Table<'_> {
    // Whether p at distance d comes from the row of node c over an arc of weight w: that row holds p at d - w.
    #[tactic(auto, unfolding(crate::specs::Check::comes_from))]
    fn comes_from(self, c: usize, w: u32, p: u32, d: u32) -> bool
        requires { HasRows self.places self.ids.now self.distances.now c }
        ensures { result ≡ comes_from self.entry.places self.entry.ids.now self.entry.distances.now c w p d }
    {
        w <= d && self.row(c).holds(p, d - w)
    }

    // Whether p at distance d comes to node i over one of its arcs.
    fn comes_over(self, g: &Network<'_>, i: usize, p: u32, d: u32) -> bool
        requires can_read { CanRead g.now self.places self.ids.now self.distances.now }
        requires i_bound { i < node_count g.now }
        ensures { result ≡ comes_over g.now self.entry.places self.entry.ids.now self.entry.distances.now i p d }
    {
        let neighbours = g.neighbours_of(i);
        let weights = g.weights_of(i);
        neighbours
            .iter()
            .zip(weights)
            .any(|(&c, &w)| self.comes_from(c as usize, w, p, d))
    }

    // Whether p at distance d is padding, node i's own point, or comes to it over an arc.
    #[tactic(auto, unfolding(crate::specs::Check::is_supported))]
    fn is_supported(self, g: &Network<'_>, points: &[u8], i: usize, p: u32, d: u32) -> bool
        requires can_check { CanCheck g.now points.now self.places self.ids.now self.distances.now }
        requires i_bound { i < node_count g.now }
        ensures { result ≡ is_supported g.now points.now self.entry.places self.entry.ids.now self.entry.distances.now i p d }
    {
        p == Distance::NONE || is_own(points, i, p, d) || self.comes_over(g, i, p, d)
    }

    // Whether a place of row i holds what nothing supports.
    fn unsupported(self, g: &Network<'_>, points: &[u8], i: usize) -> bool
        requires can_check { CanCheck g.now points.now self.places self.ids.now self.distances.now }
        requires i_bound { i < node_count g.now }
        ensures { result ≡ unsupported g.now points.now self.entry.places self.entry.ids.now self.entry.distances.now i }
    {
        let row = self.row(i);
        row.ids
            .iter()
            .zip(row.distances)
            .any(|(&p, &d)| !self.is_supported(g, points, i, p, d))
    }

    // Whether the row of node c, over an arc of weight w, asks for a place in row i.
    #[tactic(auto, unfolding(crate::specs::Check::asks_from))]
    fn asks_from(self, i: usize, c: usize, w: u32) -> bool
        requires { (1 ≤ self.places) × HasRows self.places self.ids.now self.distances.now i × HasRows self.places self.ids.now self.distances.now c }
        ensures { result ≡ asks_from self.entry.places self.entry.ids.now self.entry.distances.now i c w }
    {
        self.row(i).asks(self.row(c), w)
    }

    // Whether a neighbour's row asks for a place in row i, over one of node i's arcs.
    fn unclosed(self, g: &Network<'_>, i: usize) -> bool
        requires can_read { CanRead g.now self.places self.ids.now self.distances.now }
        requires i_bound { i < node_count g.now }
        ensures { result ≡ unclosed g.now self.entry.places self.entry.ids.now self.entry.distances.now i }
    {
        let neighbours = g.neighbours_of(i);
        let weights = g.weights_of(i);
        neighbours
            .iter()
            .zip(weights)
            .any(|(&c, &w)| self.asks_from(i, c as usize, w))
    }

    // Whether something is wrong with row i.
    #[tactic(auto, unfolding(crate::specs::Check::bad_node))]
    fn bad_node(self, g: &Network<'_>, points: &[u8], i: u32) -> bool
        requires can_check { CanCheck g.now points.now self.places self.ids.now self.distances.now }
        requires i_bound { i < node_count g.now }
        ensures { result ≡ bad_node g.now points.now self.entry.places self.entry.ids.now self.entry.distances.now i }
    {
        let at = i as usize;
        let row = self.row(at);
        row.is_bad(points)
            || row.lacks_own(points, i)
            || self.unsupported(g, points, at)
            || self.unclosed(g, at)
    }
}

// Whether both arrays are the table that build would write. It costs the number of arcs times the square of the places to a row.
pub fn check(g: &Network<'_>, points: &[u8], table: Table<'_>) -> bool
    requires { CanCheck g.now points.now table.places table.ids.now table.distances.now }
    ensures { result ≡ same_table g.now points.now table.entry.places table.entry.ids.now table.entry.distances.now }
{
    let n = g.nodes() as u32;
    !(0..n).any(|i| table.bad_node(g, points, i))
}
