// Two documents that are kept in agreement: what they hold, why an edit is refused, and what a pair of them promises.
#![tactic(auto)]

pub mod fault;
pub mod line;
pub mod promise;
