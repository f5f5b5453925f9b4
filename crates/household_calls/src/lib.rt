// The calls with households and sites: document 02, Ask 1. Each tests its conditions, and then clears the scratch and lends it to the work.
#![tactic(auto)]

pub mod entries;
pub mod list;
pub mod number;
