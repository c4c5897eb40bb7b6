// Kinds of values and the changes that they take.
#![tactic(auto)]

mod applying;
pub mod change;
pub mod kind;
pub mod laws;
pub mod refusal;
pub mod side;
#[cfg(test)]
mod tests;
