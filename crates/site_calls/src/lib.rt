// The calls without a table, but for the network check: each tests its conditions, then does its work. Document 01, 'What a site receives'.
#![tactic(auto)]

pub mod distances;
pub mod eager;
pub mod lazy;
pub mod nearest;
pub mod short_query;
pub mod verify;
