// The supplied links, and the supplied row of four.
#![tactic(auto)]

pub mod carry;
pub mod carry_link;
pub mod label;
pub mod laws;
pub mod low;
pub mod low_link;
pub mod private;
pub mod row;
pub mod same;
#[cfg(test)]
mod tests;
