// The twelve numbers of refusal, each with the example that document 01 gives, 6 and 11 with those of Ask 8.
use crate::answers::{Refused, accepted};
use crate::table_rows::Table;
use crate::{NEIGHBOURS, NO_LIMIT, POINTS, SCRATCH, STARTS, WEIGHTS};
use std::io;

fn network_check(starts: &[u32], neighbours: &[u32], weights: &[u32]) -> Result<(), Refused> {
    accepted(overlap::overlap_network_check(starts, neighbours, weights))
}

// An example and the number that refuses it.
fn show<T: Drop>(rt: &impl Print, example: &str, answer: Result<T, Refused>) -> io::Result<()> {
    match answer {
        Ok(_) => println!(rt; "  {example}: accepted"),
        Err(refused) => println!(rt; "  {example}: {refused}"),
    }
}

// 1 to 5, by the network check.
pub fn show_networks(rt: &impl Print) -> io::Result<()> {
    println!(rt; "Refusals: the examples of document 01")?;
    let examples = [
        ("starts of 1 entry", network_check(&[0], &[], &[])),
        ("starts 0, 2, 1", network_check(&[0, 2, 1], &[1], &[4])),
        (
            "n = 2, node 0 to 0",
            network_check(&[0, 1, 2], &[0, 0], &[4, 4]),
        ),
        (
            "weight 65,536",
            network_check(&[0, 1, 2], &[1, 0], &[65536, 65536]),
        ),
        (
            "0 to 1 of 4, 1 to 0 of 5",
            network_check(&[0, 1, 2], &[1, 0], &[4, 5]),
        ),
    ];
    for (example, answer) in examples {
        show(rt, example, answer)?;
    }
    Ok(())
}

// 6, 7 and 9: N with a byte 16, node 6, and K = 2 with k = 2.
pub fn show_arguments(rt: &impl Print) -> io::Result<()> {
    let byte = crate::eager(&WEIGHTS, &[0, 0, 16, 0, 1, 1], 0, 1, NO_LIMIT);
    show(rt, "N, byte 16", byte)?;
    show(rt, "N, node 6", crate::distances(6))?;
    show(rt, "N, K = 2, 11 ids", short_ids())?;
    let table = Table::<12>::new(2);
    show(rt, "K = 2, k = 2", crate::table_query(0, 2, &table))
}

// 8: a table array that is not n × K long.
fn short_ids() -> Result<(), Refused> {
    crate::build_of(&POINTS, 2, &mut [0; 11], &mut [0; 12])
}

// 10: an array for answers that is shorter than n.
pub fn show_short_answers(rt: &impl Print) -> io::Result<()> {
    let listing = overlap::overlap_lazy(
        &STARTS,
        &NEIGHBOURS,
        &WEIGHTS,
        &POINTS,
        0,
        1,
        &mut [0; SCRATCH],
        &mut [0; 5],
    );
    show(rt, "N, 5 answer places", accepted(listing.number))
}

// 11 and 12: removal where no locker stands, and a limit below eager's count.
pub fn show_last(rt: &impl Print) -> io::Result<()> {
    let mut points = POINTS;
    let mut table: Table<12> = crate::build(&points, 2)?;
    show(rt, "N, remove 0", crate::remove(&mut points, 0, &mut table))?;
    show(
        rt,
        "N, q = 0, k = 2, limit 3",
        crate::eager(&WEIGHTS, &POINTS, 0, 2, 3),
    )
}
