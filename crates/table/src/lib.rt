// The table of each node's K nearest points: build, insert, remove.
#![tactic(auto)]

pub mod build;
pub mod insert;
mod offers;
pub mod remove;
