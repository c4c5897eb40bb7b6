// Plays a day's log to a pair of documents, and prints each refusal, both documents and the counts.
#![tactic(auto)]

mod running;

use documents::line::Line;
use pair::pair::Pair;
use playback::replay::Replay;
use running::{play, print};
use std::io;
use std::io::{BufWriter, Write};
use supplied::row::supplied_row;

// The most lines of the sheet.
const SIZE: usize = 256;

fn main(rt: HostRuntime) -> io::Result<()> {
    let mut lines = [Line::Record([0; 4]); SIZE];
    let mut records = [[0u32; 4]; SIZE];
    let mut links = [supplied_row(); SIZE];
    let mut pair = Pair::open(&mut lines, &mut records, &mut links, supplied_row());
    let mut replay = Replay::new(&mut pair);
    let mut input = rt.stdin();
    let mut out = BufWriter::new(rt.alloc(), rt.stdout())?;
    play(&mut replay, &mut input, &mut out)?;
    print(&replay, &mut out)?;
    out.flush()
}
