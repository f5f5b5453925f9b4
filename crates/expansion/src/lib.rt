// The expansion: the queue, the steps of a search that settles nodes by rising distance, and the expansions that callers use whole.
#![tactic(auto)]

pub mod distances;
pub mod labels;
pub mod nearest;
pub mod node_queue;
pub mod queue;
pub mod step;
pub mod tags;
pub mod verify;
pub mod words;
