// Network N of document 01 through every public call, with its cases P1 to P10, the lease list, sites against a rival's, routes and
// the twelve refusals.
#![tactic(auto)]

use network_n::refusals;
use std::io;

mod cases;
mod lease;
mod queries;
mod rivals;
mod streets;
mod updates;

fn show_network(rt: &impl Print) -> io::Result<()> {
    rt.print(
        "Network N of document 01: 6 junctions, 5 roads. A star marks a locker.

         4         3
    0 ------- 1 ------- 2*
    |                   |
  5 |                   | 7
    |                   |
    3 ----------------- 4*     5*
              3

",
    )
}

fn main(rt: HostRuntime) -> io::Result<()> {
    show_network(&rt)?;
    queries::show_check(&rt)?;
    queries::show_distances(&rt)?;
    queries::show_nearest(&rt)?;
    queries::show_verify(&rt)?;
    cases::show_searches(&rt)?;
    cases::show_rows(&rt)?;
    updates::show_build(&rt)?;
    updates::show_updates(&rt)?;
    updates::show_second(&rt)?;
    lease::show(&rt)?;
    rivals::show_households(&rt)?;
    rivals::show_nearer_rows(&rt)?;
    streets::show_routes(&rt)?;
    refusals::show_networks(&rt)?;
    refusals::show_arguments(&rt)?;
    refusals::show_short_answers(&rt)?;
    refusals::show_last(&rt)
}
