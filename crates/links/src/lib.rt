// Links between kinds of values, which carry changes across: their law, and the layers that build links from links.
#![tactic(auto)]

pub mod admit;
pub mod chain;
pub mod flip;
pub mod laws;
pub mod link;
pub mod refusal;
pub mod row;
pub mod rows;
