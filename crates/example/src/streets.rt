// Ask 7 on network N: the lockers that the junctions of a route list, but for those on the route.
use network_n::text::Answer;
use std::io;

// Along a road, and with two nearest; one junction, as P1; over junctions with lockers, back and forth; a road that N has not got, and no junction.
pub fn show_routes(rt: &impl Print) -> io::Result<()> {
    println!(rt; "Routes: the lockers that some junction of the route lists, but for those on it")?;
    let routes: [(&str, &[u32], u32); 9] = [
        ("route 0-3", &[0, 3], 1),
        ("route 0-1", &[0, 1], 1),
        ("route 0-1", &[0, 1], 2),
        ("route 0", &[0], 1),
        ("route 1-2", &[1, 2], 1),
        ("route 2-4", &[2, 4], 1),
        ("route 0-1-2-1", &[0, 1, 2, 1], 1),
        ("route 0-1-3-4", &[0, 1, 3, 4], 1),
        ("no junction", &[], 1),
    ];
    for (name, route, k) in routes {
        let answer = Answer(network_n::route(route, k));
        println!(rt; "  {name}, k {k}: {answer}")?;
    }
    println!(rt)
}
