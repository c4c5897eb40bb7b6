// How many lines of a log there were, and of which sort.
ghost use Rattle.std.specs.Prelude.{◌≡◌, ◌+◌};

use kinds::side::Side;
use std::fmt;

#[derive(Clone, Copy, Default)]
pub struct Counts {
    pub sheet: u32,
    pub table: u32,
    pub skipped: u32,
    pub refused: u32,
}

impl Counts {
    // All lines so far.
    pub fn lines(&self) -> u64
        ensures { result ≡ self.now.sheet + self.now.table + self.now.skipped + self.now.refused }
    {
        self.operations() + u64::from(self.skipped) + u64::from(self.refused)
    }

    // The number of the next line, counted from 1.
    pub fn next_line(&self) -> u64
        ensures { result ≡ self.now.sheet + self.now.table + self.now.skipped + self.now.refused + 1 }
    {
        self.lines() + 1
    }

    // The frames that were accepted.
    pub fn operations(&self) -> u64
        ensures { result ≡ self.now.sheet + self.now.table }
    {
        u64::from(self.sheet) + u64::from(self.table)
    }

    pub fn note_operation(&mut self, side: Side) {
        match side {
            Side::Left => self.sheet = self.sheet.saturating_add(1),
            Side::Right => self.table = self.table.saturating_add(1),
        }
    }

    pub fn note_skipped(&mut self) {
        self.skipped = self.skipped.saturating_add(1);
    }

    pub fn note_refused(&mut self) {
        self.refused = self.refused.saturating_add(1);
    }
}

impl fmt::Display for Counts {
    fn fmt<W: fmt::Write>(&self, f: &mut fmt::Formatter<W>) -> fmt::Result {
        let Counts {
            sheet,
            table,
            skipped,
            refused,
        } = *self;
        let lines = self.lines();
        let operations = self.operations();
        write!(
            f,
            "lines {lines}: operations {operations} (sheet {sheet}, table {table}), \
             skipped {skipped}, refused {refused}"
        )
    }
}
