// A log walked through from its first line to its last, each frame played to a pair of documents.
ghost use Rattle.std.specs.Prelude.{◌≡◌};
ghost use Rattle.links.specs.Columns.{across};

use crate::counts::Counts;
use crate::partial::read_partial;
use crate::words::Words;
use documents::fault::Fault;
use frames::frame::Frame;
use kinds::side::Side;
use logs::MOST_LINES;
use logs::partial::PartialLine;
use pair::pair::Pair;
use std::io;
use std::io::Write;
use supplied::row::SuppliedRow;

// The side that an operation is carried across to.
fn across(side: Side) -> Side
    ensures { result ≡ across side }
{
    match side {
        Side::Left => Side::Right,
        Side::Right => Side::Left,
    }
}

// The pair that the frames are played to, the line that has begun, and the counts of the lines before it.
#[derive(Drop)]
pub struct Explainer<'a> {
    pair: Pair<'a, SuppliedRow>,
    line: PartialLine,
    counts: Counts,
}

impl<'a> Explainer<'a> {
    // An explainer that plays frames to the pair, before the first line.
    pub fn new(pair: Pair<'a, SuppliedRow>) -> Explainer<'a> {
        Explainer {
            pair,
            line: PartialLine::new(),
            counts: Counts::default(),
        }
    }

    // Says whether a line was refused for its number, so that the rest of the log does not matter.
    pub fn has_ended(&self) -> bool {
        self.counts.lines() > MOST_LINES
    }

    // Explains the lines that end in the next piece of the log.
    pub fn feed<W: Write>(&mut self, piece: &[u8], out: &mut W) -> io::Result<()> {
        for part in piece.split_inclusive(|byte| *byte == b'\n') {
            if self.has_ended() {
                break;
            }
            if self.counts.lines() == MOST_LINES {
                self.refuse_the_rest(out)?;
            } else if let [line @ .., b'\n'] = part {
                self.line.extend(line);
                self.explain_line(out)?;
            } else {
                self.line.extend(part);
            }
        }
        Ok(())
    }

    // Explains the last line, if it did not end with a newline, and prints the counts.
    pub fn finish<W: Write>(&mut self, out: &mut W) -> io::Result<()> {
        if !self.line.is_empty() {
            self.explain_line(out)?;
        }
        writeln!(out, "{}", self.counts)
    }

    // Explains a line: whether it is skipped, refused, or gives bytes.
    fn explain_line<W: Write>(&mut self, out: &mut W) -> io::Result<()> {
        let number = self.counts.next_line();
        let mut buffer = [0u8; 64];
        let read = read_partial(&self.line, &mut buffer);
        self.line.clear();
        match read {
            Ok(None) => {
                self.counts.note_skipped();
                writeln!(out, "{number:>7}  skipped")
            }
            Ok(Some(count)) => self.explain_bytes(number, &buffer[..count], out),
            Err(refusal) => {
                self.counts.note_refused();
                let code = refusal.number();
                let reason = Words(refusal);
                writeln!(out, "{number:>7}  refused ({code}): {reason}")
            }
        }
    }

    // Explains bytes, which may be a frame.
    fn explain_bytes<W: Write>(
        &mut self,
        number: u64,
        bytes: &[u8],
        out: &mut W,
    ) -> io::Result<()> {
        match Frame::read(bytes) {
            Ok(frame) => self.explain_frame(number, frame, bytes, out),
            Err(refusal) => {
                self.counts.note_refused();
                let refused = Words(Fault::from(refusal));
                writeln!(out, "{number:>7}  {refused}")
            }
        }
    }

    // Plays the bytes of a frame to the pair, and explains what the frame says and what came of it.
    fn explain_frame<W: Write>(
        &mut self,
        number: u64,
        frame: Frame<'_>,
        bytes: &[u8],
        out: &mut W,
    ) -> io::Result<()> {
        let words = Words(frame);
        match self.pair.play(bytes) {
            Ok(operation) => {
                self.counts.note_operation(frame.side);
                let side = across(frame.side);
                let translation = Words(Frame { side, operation });
                writeln!(out, "{number:>7}  {words} -> {translation}")
            }
            Err(fault) => {
                self.counts.note_refused();
                let refused = Words(fault);
                writeln!(out, "{number:>7}  {words} -> {refused}")
            }
        }
    }

    // Refuses the line past the last one that a log may have.
    fn refuse_the_rest<W: Write>(&mut self, out: &mut W) -> io::Result<()> {
        let number = self.counts.next_line();
        self.counts.note_refused();
        writeln!(
            out,
            "{number:>7}  refused (1): more than {MOST_LINES} lines, the rest is not read"
        )
    }
}
