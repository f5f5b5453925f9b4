// The lazy searches for the points that list a site: lazy, and lazy with extended pruning.
#![tactic(auto)]

pub mod lazy;
pub mod lazy_ep;
mod second;
