// Worked cases, and runs of a pair over the supplied row of links.
#![tactic(auto)]

#[cfg(test)]
mod tests;
pub mod worked;
