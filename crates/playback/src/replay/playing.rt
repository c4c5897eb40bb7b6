// Playing one line.
ghost use Rattle.std.specs.Prelude.{◌≡◌, ◌≤◌, []};
ghost use Rattle.playback.specs.Days.{begun, ended};
ghost use Rattle.playback.specs.States.{day, reading, Tries, Counts, PlaysLine};
ghost use Rattle.logs.specs.Feeding.{midst};
ghost use Rattle.pair.specs.State.{state};

use crate::fault::{Cause, LineFault};
use crate::replay::Replay;
use frames::frame::Operation;
use frames::line::read_line;
use links::rows::Rows;
use logs::MOST_LINES;
use logs::partial::PartialLine;
use pair::pair::Pair;

impl<'p, 'a, R: Rows> Replay<'p, 'a, R> {
    // A replay over a pair, before the first line.
    pub fn new(pair: &'p mut Pair<'a, R>) -> Replay<'p, 'a, R>
        ensures { reading result ≡ midst (begun (state pair.old)) [] }
    {
        Replay {
            pair,
            start: PartialLine::new(),
            lines: 0,
            accepted: 0,
            refused: 0,
        }
    }

    // Says whether a line was refused for its number, so that the rest of the log does not matter.
    pub fn has_ended(&self) -> bool
        ensures { result ≡ ended (day self.now) }
    {
        self.lines > MOST_LINES
    }

    // Tries a line: its number, its characters, and then its frame. The answer is the translation, none for a skipped line.
    fn try_line(&mut self, line: &[u8]) -> Result<Option<Operation<'static>>, Cause>
        ensures { Tries R.Rows.columns self.old line.now result self.new }
    {
        if self.lines >= MOST_LINES {
            return Err(Cause::TooManyLines);
        }
        let mut buffer = [0u8; 64];
        let Some(count) = read_line(line, &mut buffer)? else {
            return Ok(None);
        };
        Ok(Some(self.pair.play(&buffer[..count])?))
    }

    // Counts a line that was tried, and names it where it was refused.
    fn count(
        &mut self,
        tried: Result<Option<Operation<'static>>, Cause>,
    ) -> Result<Option<Operation<'static>>, LineFault>
        requires { self.old.lines ≤ 1000000 }
        ensures { Counts self.old tried.entry result self.new }
    {
        self.lines += 1;
        match tried {
            Ok(None) => {}
            Ok(Some(_)) => self.accepted += 1,
            Err(_) => self.refused += 1,
        }
        let line = self.lines;
        tried.map_err(|cause| LineFault { line, cause })
    }

    // Plays a line, and answers its translation, none for a skipped line. A refused line changes the counts and nothing else,
    // and once the log has ended nothing counts.
    pub fn play_line(&mut self, line: &[u8]) -> Result<Option<Operation<'static>>, LineFault>
        ensures { PlaysLine R.Rows.columns self.old line.now result self.new }
    {
        if self.has_ended() {
            let line = self.lines;
            let cause = Cause::TooManyLines;
            return Err(LineFault { line, cause });
        }
        let tried = self.try_line(line);
        self.count(tried)
    }
}
