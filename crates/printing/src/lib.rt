// The lines that a day's report consists of: each is printed by one call, into a buffer that the caller lends.
#![tactic(auto)]

pub mod lines;
pub mod refusal;
#[cfg(test)]
mod tests;
mod text;
