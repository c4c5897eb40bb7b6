// Feeding a log in pieces of any size.
ghost use Rattle.std.specs.Prelude.{ℕ, ◌<◌, ◌≤◌, length};
ghost use Rattle.playback.specs.Feedings.{ReportsLine, EndsLine, Takes, Feeds, Finishes};

use crate::replay::Replay;
use links::rows::Rows;
use logs::ends::line_end;
use logs::partial::PartialLine;
use printing::lines::print_refusal;
use std::mem;

// The fewest bytes of a report that a refusal is written to.
const SHORTEST_REPORT: usize = 64;

// How many bytes of a piece were taken, and how many bytes were written to the report's front.
#[derive(Clone, Copy, PartialEq, Eq, Debug)]
pub struct Fed {
    pub taken: usize,
    pub written: usize,
}

impl<'p, 'a, R: Rows> Replay<'p, 'a, R> {
    // Plays a line, reports it if it is refused, and counts the bytes of its report.
    fn report_line(&mut self, line: &[u8], report: &mut [u8]) -> usize
        requires { 64 ≤ length report.old }
        ensures { ReportsLine R.Rows.columns self.old line.now report.old result self.new report.new }
    {
        if self.has_ended() {
            return 0;
        }
        match self.play_line(line) {
            Ok(_) => 0,
            Err(fault) => print_refusal(fault.line, fault.number(), report).unwrap(),
        }
    }

    // Plays the line that has begun, as `report_line` does; another line may begin then.
    fn end_line(&mut self, report: &mut [u8]) -> usize
        requires { 64 ≤ length report.old }
        ensures { EndsLine R.Rows.columns self.old report.old result self.new report.new }
    {
        let line = mem::replace(&mut self.start, PartialLine::new());
        self.report_line(line.as_slice(), report)
    }

    // Takes the bytes up to the first newline, or all of them if there is none.
    fn feed_line(&mut self, piece: &[u8], report: &mut [u8]) -> Fed
        requires some { 0 < length piece.now }
        requires room { 64 ≤ length report.old }
        ensures takes { Takes R.Rows.columns self.old piece.now report.old result self.new report.new }
        ensures some { 0 < result.taken }
    {
        let Some(end) = line_end(piece) else {
            self.start.extend(piece);
            return Fed {
                taken: piece.len(),
                written: 0,
            };
        };
        self.start.extend(&piece[..end]);
        let written = self.end_line(report);
        Fed {
            taken: end + 1,
            written,
        }
    }

    // Feeds a piece of a log: takes bytes from its front, plays each line that a newline ends, and writes the reports of those
    // that are refused to the report's front. All of the piece is taken, unless fewer than 64 bytes of the report are left: then
    // the caller puts the report away, and feeds the rest.
    pub fn feed(&mut self, piece: &[u8], report: &mut [u8]) -> Fed
        ensures { Feeds R.Rows.columns self.old piece.now report.old result self.new report.new }
    {
        let mut taken = 0;
        let mut written = 0;
        while taken < piece.len() && report.len() - written >= SHORTEST_REPORT {
            let fed = self.feed_line(&piece[taken..], &mut report[written..]);
            taken += fed.taken;
            written += fed.written;
        }
        Fed { taken, written }
    }

    // Ends a log: plays the last line, if no newline ended it, and reports it if it is refused. Counts the bytes of the report; a
    // report shorter than 64 bytes is not written, and nothing is played then.
    pub fn finish(&mut self, report: &mut [u8]) -> Option<usize>
        ensures { Finishes R.Rows.columns self.old report.old result self.new report.new }
    {
        if report.len() < SHORTEST_REPORT {
            return None;
        }
        if self.start.is_empty() {
            return Some(0);
        }
        Some(self.end_line(report))
    }
}
