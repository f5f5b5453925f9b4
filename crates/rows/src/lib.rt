// The rows of the table, in two flat arrays: one point put into a row or taken out of it, and the check of the whole table.
#![tactic(auto)]

pub mod check;
mod order;
pub mod put;
pub mod rows;
pub mod table;
pub mod take;
