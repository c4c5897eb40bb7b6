// Explains a bench log: each line in plain words and what came of it on the two documents, and then the counts.
#![tactic(auto)]

mod counts;
mod explainer;
mod partial;
#[cfg(test)]
mod tests;
mod words;

use documents::line::Line;
use explainer::Explainer;
use pair::pair::Pair;
use std::io;
use std::io::{BufWriter, Read, Write};
use supplied::row::supplied_row;

// The most lines of the sheet, and records of the table.
const SIZE: usize = 256;

// Explains the log on standard input to standard output.
fn main(rt: HostRuntime) -> io::Result<()> {
    let mut input = rt.stdin();
    let mut out = BufWriter::new(rt.alloc(), rt.stdout())?;
    let mut lines = [Line::Record([0; 4]); SIZE];
    let mut records = [[0u32; 4]; SIZE];
    let mut links = [supplied_row(); SIZE];
    let pair = Pair::open(&mut lines, &mut records, &mut links, supplied_row());
    let mut explainer = Explainer::new(pair);
    let mut piece = [0u8; 65536];
    // Reads to the end of the log: a loop is counted, so that it is seen to end, and no log is that long.
    for _ in 0..u64::MAX {
        if explainer.has_ended() {
            break;
        }
        let count = input.read(&mut piece)?;
        if count == 0 {
            break;
        }
        explainer.feed(&piece[..count], &mut out)?;
    }
    explainer.finish(&mut out)?;
    out.flush()
}
