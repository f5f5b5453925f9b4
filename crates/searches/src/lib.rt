// The searches for the points that list a site: eager, and what it shares with the others.
#![tactic(auto)]

pub mod eager;
pub mod flags;
pub mod look;
