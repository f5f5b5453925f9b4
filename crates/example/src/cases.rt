// The cases P1 to P10 of document 01.
use network_n::table_rows::Table;
use network_n::text::Answer;
use network_n::{NO_LIMIT, NODES, POINTS, WEIGHTS};
use std::io;

// No lockers, for P6.
const NO_POINTS: [u8; NODES] = [0, 0, 0, 0, 0, 0];

// The weights of N with road 2-4 of 6, for P7.
const LIGHTER: [u32; 10] = [4, 5, 4, 3, 3, 6, 5, 3, 6, 3];

fn show_eager(
    rt: &impl Print,
    name: &str,
    weights: &[u32; 10],
    points: &[u8; NODES],
    q: u32,
    k: u32,
    limit: u32,
) -> io::Result<()> {
    let answer = Answer(network_n::eager(weights, points, q, k, limit));
    println!(rt; "  {name}site {q}, k {k}: {answer}")
}

fn show_on_n(rt: &impl Print, name: &str, q: u32, k: u32, limit: u32) -> io::Result<()> {
    show_eager(rt, name, &WEIGHTS, &POINTS, q, k, limit)
}

fn show_short_query(rt: &impl Print, q: u32) -> io::Result<()> {
    let answer = Answer(network_n::short_query(q));
    println!(rt; "       short query, site {q}: {answer}")
}

// P1 to P7: the lists of eager and the nodes that it expanded; P1 as a short query; and a site that two junctions are equally far from.
pub fn show_searches(rt: &impl Print) -> io::Result<()> {
    println!(rt; "Cases of document 01")?;
    show_on_n(rt, "P1   ", 0, 1, NO_LIMIT)?;
    show_short_query(rt, 0)?;
    show_on_n(rt, "P2   ", 0, 2, NO_LIMIT)?;
    show_on_n(rt, "     limit 4, ", 0, 2, 4)?;
    show_on_n(rt, "     limit 3, ", 0, 2, 3)?;
    show_on_n(rt, "P3   ", 1, 1, NO_LIMIT)?;
    show_on_n(rt, "P4   ", 2, 1, NO_LIMIT)?;
    show_on_n(rt, "P5   ", 5, 1, NO_LIMIT)?;
    show_eager(
        rt,
        "P6   no lockers, ",
        &WEIGHTS,
        &NO_POINTS,
        0,
        1,
        NO_LIMIT,
    )?;
    show_eager(
        rt,
        "     no lockers, ",
        &WEIGHTS,
        &NO_POINTS,
        2,
        1,
        NO_LIMIT,
    )?;
    show_eager(
        rt,
        "P7   road 2-4 of 6, ",
        &LIGHTER,
        &POINTS,
        0,
        1,
        NO_LIMIT,
    )
}

// P8 to P10: rows of the table as it is built and after an insertion.
pub fn show_rows(rt: &impl Print) -> io::Result<()> {
    let mut points = POINTS;
    let mut table: Table<12> = network_n::build(&points, 2)?;
    println!(rt; "  P8   row 0, K 2: {}", table.row(0))?;
    println!(rt; "  P9   row 5, K 2: {}", table.row(5))?;
    let update = Answer(network_n::insert(&mut points, 0, &mut table));
    println!(rt;
        "  P10  row 2 after insert 0, K 2: {}; {update}\n",
        table.row(2)
    )
}
