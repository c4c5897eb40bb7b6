// A sheet and a table that are kept in agreement, in slots that the caller lends.
#![tactic(auto)]

mod cells;
pub mod pair;
