// A log read to its end, and the day printed.
use links::rows::Rows;
use playback::replay::Replay;
use std::io;
use std::io::{Read, Write};

// Plays a log, read in pieces, and writes the refusals as they come.
pub fn play<R: Rows, I: Read, O: Write>(
    replay: &mut Replay<'_, '_, R>,
    input: &mut I,
    out: &mut O,
) -> io::Result<()> {
    let mut piece = [0u8; 65536];
    // A loop is counted, so that it is seen to end, and no log is that long.
    for _ in 0..u64::MAX {
        if replay.has_ended() {
            break;
        }
        let count = input.read(&mut piece)?;
        if count == 0 {
            break;
        }
        feed(replay, &piece[..count], out)?;
    }
    let mut report = [0u8; 64];
    match replay.finish(&mut report) {
        Some(count) => out.write_all(&report[..count]),
        None => Ok(()),
    }
}

// Feeds all of a piece, and writes the refusals whenever their buffer is full.
fn feed<R: Rows, O: Write>(
    replay: &mut Replay<'_, '_, R>,
    piece: &[u8],
    out: &mut O,
) -> io::Result<()> {
    let mut report = [0u8; 4096];
    let mut rest = piece;
    while !rest.is_empty() {
        let fed = replay.feed(rest, &mut report);
        out.write_all(&report[..fed.written])?;
        rest = &rest[fed.taken..];
    }
    Ok(())
}

// Prints the day's report, line by line.
pub fn print<R: Rows, O: Write>(replay: &Replay<'_, '_, R>, out: &mut O) -> io::Result<()> {
    let mut line = [0u8; 64];
    for at in 0..usize::MAX {
        match replay.print(at, &mut line) {
            Ok(count) => out.write_all(&line[..count])?,
            Err(_) => break,
        }
    }
    Ok(())
}
