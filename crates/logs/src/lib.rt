// A log in pieces: where a line ends, and the line that a piece's end cuts.
#![tactic(auto)]

pub mod ends;
pub mod laws;
pub mod partial;

// The most lines of a log.
pub const MOST_LINES: u64 = 1_000_000;
