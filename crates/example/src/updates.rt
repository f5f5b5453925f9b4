// The table of network N, K = 2: build, insert, remove and the table check.
use network_n::POINTS;
use network_n::answers::{Changed, Refused, YesNo, number};
use network_n::table_rows::Table;
use network_n::text::Answer;
use std::io;

fn show_table_check(rt: &impl Print, points: &[u8; 6], table: &Table<12>) -> io::Result<()> {
    let answer = Answer(network_n::table_check(points, table));
    println!(rt; "    table check: {answer}")
}

fn show_update(rt: &impl Print, name: &str, update: Result<Changed, Refused>) -> io::Result<()> {
    println!(rt; "  {name}: {}", Answer(update))
}

// The table as it is built, and with one entry damaged.
pub fn show_build(rt: &impl Print) -> io::Result<()> {
    let built = network_n::build(&POINTS, 2);
    println!(rt; "The table, K 2")?;
    println!(rt; "  build: number {}", number(&built))?;
    let mut table = built?;
    table.show_rows(rt)?;
    show_table_check(rt, &POINTS, &table)?;
    println!(rt; "  row 0 with distance 9 in place of 8")?;
    table.distances[1] = 9;
    show_table_check(rt, &POINTS, &table)
}

// A locker put on junction 0 and taken away again.
pub fn show_updates(rt: &impl Print) -> io::Result<()> {
    let mut points = POINTS;
    let built = network_n::build(&points, 2)?;
    let mut table = built;
    let update = network_n::insert(&mut points, 0, &mut table);
    show_update(rt, "insert 0", update)?;
    table.show_rows(rt)?;
    show_table_check(rt, &points, &table)?;
    let update = network_n::remove(&mut points, 0, &mut table);
    show_update(rt, "remove 0", update)?;
    show_table_check(rt, &points, &table)?;
    println!(rt; "    the table as built: {}", YesNo(table == built))
}

// A second locker on junction 2: rows repeat it, as far as they have room.
pub fn show_second(rt: &impl Print) -> io::Result<()> {
    let mut points = POINTS;
    let mut table = network_n::build(&points, 2)?;
    let update = network_n::insert(&mut points, 2, &mut table);
    show_update(rt, "insert 2", update)?;
    table.show_rows(rt)?;
    show_table_check(rt, &points, &table)?;
    println!(rt)
}
