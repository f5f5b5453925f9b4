// Replays lists of calls on network N of document 01, and prints what comes out of each.
#![tactic(auto)]

use network_n::{NEIGHBOURS, NODES, POINTS, STARTS, WEIGHTS};
use replay::ReplayError;
use std::{array, fmt, io};

// What a call does, by its word in the list: 0 inserts, any other removes.
#[derive(Clone, Copy, Debug, PartialEq, Eq)]
enum Kind {
    Insert,
    Remove,
}

impl From<u32> for Kind {
    fn from(word: u32) -> Kind {
        if word == 0 {
            Kind::Insert
        } else {
            Kind::Remove
        }
    }
}

impl fmt::Display for Kind {
    fn fmt<W: fmt::Write>(&self, f: &mut fmt::Formatter<W>) -> fmt::Result {
        f.write_str(match self {
            Kind::Insert => "insert",
            Kind::Remove => "remove",
        })
    }
}

// A call of the list, as replay's arrays hold it: the word of its kind, its node, K and words of scratch.
#[derive(Clone, Copy, Debug, PartialEq, Eq)]
struct Call {
    kind: u32,
    node: u32,
    places: u32,
    words: usize,
}

impl Call {
    // With K = 2, and as much scratch as that needs: 16 × n + 8 × (A + n) × K with n = 6 and A = 10.
    fn with_kind(kind: u32, node: u32) -> Self {
        Call {
            kind,
            node,
            places: 2,
            words: 352,
        }
    }

    fn insert(node: u32) -> Self {
        Call::with_kind(0, node)
    }

    fn remove(node: u32) -> Self {
        Call::with_kind(1, node)
    }

    fn places(self, places: u32) -> Self {
        Call { places, ..self }
    }

    fn words(self, words: usize) -> Self {
        Call { words, ..self }
    }
}

fn print_answer(rt: &impl Print, answer: Result<(), ReplayError>) -> io::Result<()> {
    match answer {
        Ok(()) => println!(rt; "replayed"),
        Err(error) => println!(rt; "{error}"),
    }
}

// Each call's kind and node, and what came out.
fn print_calls(rt: &impl Print, calls: &[Call], numbers: &[u32], counts: &[u32]) -> io::Result<()> {
    for (call, (number, changed)) in calls.iter().zip(numbers.iter().zip(counts)) {
        let kind = Kind::from(call.kind);
        let node = call.node;
        println!(rt; "{kind} {node} number {number} changed {changed}")?;
    }
    Ok(())
}

fn print_marks(rt: &impl Print, points: &[u8; NODES]) -> io::Result<()> {
    print!(rt; "marks")?;
    for lockers in points {
        print!(rt; " {lockers}")?;
    }
    println!(rt)
}

// The two places of each row, a node and its distance each.
fn print_rows(rt: &impl Print, ids: &[u32; 12], distances: &[u32; 12]) -> io::Result<()> {
    for node in 0..NODES {
        let at = 2 * node;
        println!(rt;
            "row {} {} {} {}",
            ids[at],
            distances[at],
            ids[at + 1],
            distances[at + 1]
        )?;
    }
    Ok(())
}

// How many words of scratch are not zero.
fn print_scratch(rt: &impl Print, scratch: &[u32; 360]) -> io::Result<()> {
    let used = scratch.iter().filter(|&&word| word != 0).count();
    println!(rt; "words of scratch not zero {used}")
}

// Builds with K = places on network N with the points, makes the calls, and prints what comes out: the answer, each call's entries, the marks (how
// many lockers stand at each node), the rows and the scratch. A list fits where it has as many counts as calls.
fn print_replay<const N: usize, const COUNTS: usize>(
    rt: &impl Print,
    mut points: [u8; NODES],
    places: u32,
    calls: &[Call; N],
    mut counts: [u32; COUNTS],
) -> io::Result<()> {
    let kinds: [u32; N] = array::from_fn(|j| calls[j].kind);
    let nodes: [u32; N] = array::from_fn(|j| calls[j].node);
    let each_places: [u32; N] = array::from_fn(|j| calls[j].places);
    let lengths: [usize; N] = array::from_fn(|j| calls[j].words);
    let mut scratch = [7; 360];
    let mut ids = [9; 12];
    let mut distances = [9; 12];
    let mut numbers = [9; N];
    let answer = replay::replay(
        &STARTS,
        &NEIGHBOURS,
        &WEIGHTS,
        &mut points,
        places,
        &mut scratch,
        &mut ids,
        &mut distances,
        &kinds,
        &nodes,
        &each_places,
        &lengths,
        &mut numbers,
        &mut counts,
    );
    print_answer(rt, answer)?;
    print_calls(rt, calls, &numbers, &counts)?;
    print_marks(rt, &points)?;
    print_rows(rt, &ids, &distances)?;
    print_scratch(rt, &scratch)
}

// Insertions and removals, accepted and refused with 7, 8, 10 and 11, and some that meet several; node 4 has two lockers for a while.
fn all_kinds(rt: &impl Print) -> io::Result<()> {
    let calls = [
        Call::insert(0),
        Call::remove(2).words(360),
        Call::insert(6),
        Call::insert(1).places(3),
        Call::insert(1).words(351),
        Call::insert(4),
        Call::remove(2),
        Call::insert(3).words(353),
        Call::with_kind(9, 5),
        Call::insert(7).places(18).words(0),
        Call::remove(3).places(1).words(0),
        Call::remove(1).words(0),
        Call::insert(2),
        Call::remove(4).words(360),
    ];
    print_replay(rt, POINTS, 2, &calls, [9; 14])
}

// Nodes with 15 lockers and with 14: insert at 15 is refused with 11, and rows that show two of them stay as they are.
fn full_nodes(rt: &impl Print) -> io::Result<()> {
    let calls = [
        Call::insert(0),
        Call::insert(4),
        Call::insert(4),
        Call::remove(2),
        Call::insert(2),
        Call::remove(0),
    ];
    print_replay(rt, [15, 0, 1, 0, 14, 1], 2, &calls, [9; 6])
}

// The list may be empty: the table as build writes it.
fn no_calls(rt: &impl Print) -> io::Result<()> {
    print_replay(rt, POINTS, 2, &[], [])
}

// One call, an insertion at node 0 with K = 2 and so many words of scratch, behind a build with `places`; `counts` is fit with one entry.
fn one_call<const COUNTS: usize>(
    rt: &impl Print,
    places: u32,
    words: usize,
    counts: [u32; COUNTS],
) -> io::Result<()> {
    let calls = [Call::insert(0).words(words)];
    print_replay(rt, POINTS, places, &calls, counts)
}

fn main(rt: HostRuntime) -> io::Result<()> {
    all_kinds(&rt)?;
    full_nodes(&rt)?;
    no_calls(&rt)?;
    one_call(&rt, 2, 352, [9])?;
    one_call(&rt, 2, 361, [9])?;
    one_call(&rt, 1, 352, [9])?;
    one_call(&rt, 2, 352, [9, 9])
}
