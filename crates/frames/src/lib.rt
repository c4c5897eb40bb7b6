// A bench log's lines, read as bytes, and its frames, read as operations.
#![tactic(auto)]

pub mod frame;
pub mod line;
pub mod reading;
pub mod refusal;
