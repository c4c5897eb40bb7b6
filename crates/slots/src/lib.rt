// A list that stands over a table of slots which its caller lends.
#![tactic(auto)]

mod list;
mod refusal;
#[cfg(test)]
mod tests;

pub use list::SlotList;
pub use refusal::Refusal;
