// The calls with a table: each tests its conditions, then does its work. Document 01, 'The table'.
#![tactic(auto)]

pub mod build;
pub mod table_check;
pub mod table_query;
pub mod updated;
