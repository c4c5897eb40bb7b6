// A day's log, played to a pair of documents: what is refused is reported as it comes, and both documents are printed.
#![tactic(auto)]

pub mod fault;
pub mod laws;
pub mod replay;
