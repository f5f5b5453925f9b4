// Ask 1 on network N, whose lockers are the sites: the households that a site wins, the sheet, and the nearer of its rows and a rival's.
use network_n::table_rows::Table;
use network_n::text::{Answer, Entries};
use network_n::{HOUSEHOLDS, POINTS, RIVAL_POINTS};
use std::{fmt, io};

// A site that is no locker, two and one nearest; and the three sites of N.
pub fn show_households(rt: &impl Print) -> io::Result<()> {
    println!(rt; "Households: 1 at junction 0, 2 at 1, 1 at 3, 3 at 5; the lockers are the sites")?;
    for (q, k) in [(0, 1), (0, 2), (2, 1), (4, 1), (5, 1)] {
        let answer = Answer(network_n::households(q, k));
        println!(rt; "  site {q}, k {k}: {answer}")?;
    }
    println!(rt; "  sheet: {}", Answer(network_n::sheet(&HOUSEHOLDS)))?;
    let answer = Answer(network_n::sheet(&[0, 0, 16, 0, 0, 0]));
    println!(rt; "  sheet, household byte 16: {answer}\n")
}

// A row's distances, or "empty".
#[derive(Clone, Copy, Debug, PartialEq, Eq)]
struct NearerRow<'a>(&'a [u32]);

impl fmt::Display for NearerRow<'_> {
    fn fmt<W: fmt::Write>(&self, f: &mut fmt::Formatter<W>) -> fmt::Result {
        if self.0.is_empty() {
            f.write_str("empty")
        } else {
            write!(f, "{}", Entries(self.0))
        }
    }
}

// By all three calls: the row, the number that a refusal has, and whose row it is.
fn show_nearer_row(
    rt: &impl Print,
    junction: u32,
    own: &Table<12>,
    rival: &Table<12>,
) -> io::Result<()> {
    let row = NearerRow(network_n::nearer_row(junction, own, rival));
    if let Err(refused) = network_n::check_nearer_row(junction, own, rival) {
        return println!(rt; "  of junction {junction}: {refused}, the row {row}");
    }
    let side = Answer(network_n::nearer_side(junction, own, rival));
    println!(rt; "  of junction {junction}: {side} {row}")
}

// Of each junction, and of one that N has not got.
pub fn show_nearer_rows(rt: &impl Print) -> io::Result<()> {
    let own = network_n::build(&POINTS, 2)?;
    let rival = network_n::build(&RIVAL_POINTS, 2)?;
    println!(rt; "The row whose first entry is nearer, K 2; a rival's lockers at 0, 2 and 3")?;
    for junction in 0..7 {
        show_nearer_row(rt, junction, &own, &rival)?;
    }
    println!(rt)
}
