// The table query: the points that list a site, by the table.
#![tactic(auto)]

pub mod query;
