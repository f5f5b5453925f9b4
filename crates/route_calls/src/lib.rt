// The call with a route: document 02, Ask 7. It tests its conditions, and then clears the scratch and lends it to the work.
#![tactic(auto)]

pub mod call;
pub mod number;
