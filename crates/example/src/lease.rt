// The lease list of network N: for each junction as a site, the lockers that it pays overflow rent, by all four searches. For k = 2 the table query
// needs K = 3.
use network_n::answers::List;
use network_n::table_rows::Table;
use network_n::text::{Entries, Entry};
use network_n::{NO_LIMIT, POINTS, WEIGHTS};
use std::{fmt, io};

// A list as a person says it: "locker 2", "lockers 2 and 4".
#[derive(Clone, Copy, Debug, PartialEq, Eq)]
struct Lockers<'a>(&'a [u32]);

impl fmt::Display for Lockers<'_> {
    fn fmt<W: fmt::Write>(&self, f: &mut fmt::Formatter<W>) -> fmt::Result {
        match self.0 {
            [] => write!(f, "no locker"),
            [only] => write!(f, "locker {}", Entry(*only)),
            [others @ .., last] => write!(f, "lockers {} and {}", Entries(others), Entry(*last)),
        }
    }
}

// Whether lazy, lazy-EP and the table query give the list that eager gave. Behind their lists both arrays are zero, as they were lent.
fn agree(q: u32, k: u32, list: List, table: &Table<18>) -> bool {
    network_n::lazy(q, k) == Ok(list)
        && network_n::lazy_ep(q, k) == Ok(list)
        && network_n::table_query(q, k, table) == Ok(list)
}

fn show_lease(rt: &impl Print, q: u32, k: u32, table: &Table<18>) -> io::Result<()> {
    let list = network_n::eager(&WEIGHTS, &POINTS, q, k, NO_LIMIT)?
        .search
        .list;
    let lockers = Lockers(list.as_slice());
    print!(rt; "  a site at junction {q}, k {k}: overflow rent to {lockers}")?;
    if agree(q, k, list, table) {
        println!(rt; " (all four agree)")
    } else {
        println!(rt; " (the four differ)")
    }
}

pub fn show(rt: &impl Print) -> io::Result<()> {
    let table = network_n::build(&POINTS, 3)?;
    println!(rt; "Lease list, searched by eager, lazy, lazy-EP and the table query")?;
    for k in 1..=2 {
        for q in 0..6 {
            show_lease(rt, q, k, &table)?;
        }
    }
    println!(rt)
}
