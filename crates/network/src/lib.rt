// The network: its three arrays as they are lent, a node's arcs as parts of them, its lockers, the distance type, and the network check.
#![tactic(auto)]

pub mod arcs;
pub mod check;
pub mod distance;
pub mod points;
pub mod refusal;

pub use arcs::Network;
pub use refusal::Refusal;
