// The network check, distances, nearest and verify on network N.
use network_n::answers::number;
use network_n::text::Answer;
use std::io;

pub fn show_check(rt: &impl Print) -> io::Result<()> {
    println!(rt; "Network check: number {}\n", number(&network_n::check()))
}

pub fn show_distances(rt: &impl Print) -> io::Result<()> {
    println!(rt; "Distances to junctions 0, 1, 2, 3, 4, 5")?;
    for node in 0..6 {
        println!(rt; "  from {node}: {}", Answer(network_n::distances(node)))?;
    }
    println!(rt)
}

pub fn show_nearest(rt: &impl Print) -> io::Result<()> {
    println!(rt; "Nearest: the lockers at a distance below e, the first k")?;
    for (node, e, k) in [(0, 100, 3), (0, 100, 1), (0, 8, 3), (2, 100, 3), (2, 0, 3)] {
        let answer = Answer(network_n::nearest(node, e, k));
        println!(rt; "  to {node}, e {e}, k {k}: {answer}")?;
    }
    println!(rt)
}

pub fn show_verify(rt: &impl Print) -> io::Result<()> {
    println!(rt; "Verify: is the locker listed for the site?")?;
    for (p, q, k) in [(2, 0, 1), (4, 0, 1), (4, 0, 2), (5, 0, 2), (2, 2, 1)] {
        let answer = Answer(network_n::verify(p, q, k));
        println!(rt; "  locker {p}, site {q}, k {k}: {answer}")?;
    }
    println!(rt)
}
