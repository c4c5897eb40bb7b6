// Where a record stands in the sheet and in the table.
ghost use Rattle.std.specs.Prelude.{◌≡◌, ◌<◌, ◌≤◌, true, length};
ghost use Rattle.std.specs.List.{remove};
ghost use Rattle.kinds.specs.declared.side.Side.TheVariants.{Left, Right};
ghost use Rattle.documents.specs.Documents.{item, records_before, line_of, place_for};
ghost use Rattle.documents.specs.Across.{is_record};
ghost use Rattle.pair.specs.Places.{HasRecord, StandsAt, OpensAt, EndsAt};
ghost use Rattle.pair.specs.State.{state};

use crate::pair::Pair;
use links::rows::Rows;

// A record's line in the sheet, and its number in the table.
#[derive(Clone, Copy)]
pub(crate) struct Place {
    pub line: usize,
    pub number: usize,
}

impl<'a, R: Rows> Pair<'a, R> {
    // Says whether line `p` is a record.
    pub(crate) fn is_record(&self, p: usize) -> bool
        ensures { result ≡ is_record (item (state self.now).lines p) }
    {
        matches!(self.lines.get(p), Ok(line) if line.is_record())
    }

    // Line `p`, and the number of the record that is there or is put in there.
    pub(crate) fn place_of_line(&self, p: usize) -> Place
        ensures line { result.line ≡ p }
        ensures number { result.number ≡ records_before p (state self.now).lines }
        ensures within { result.number ≤ length (state self.now).records }
        ensures stands { HasRecord Left p (state self.now) → StandsAt result (state self.now) }
        ensures below { HasRecord Left p (state self.now) → HasRecord Right result.number (state self.now) }
        ensures opens { p ≤ length (state self.now).lines → OpensAt result (state self.now) }
    {
        Place {
            line: p,
            number: self.records_before(p),
        }
    }

    // Record `j`, and the line that it is or is put in as.
    pub(crate) fn place_of_record(&self, j: usize) -> Place
        ensures line { result.line ≡ line_of j (state self.now).lines }
        ensures place { result.line ≡ place_for j (state self.now).lines }
        ensures number { result.number ≡ j }
        ensures stands { HasRecord Right j (state self.now) → StandsAt result (state self.now) }
        ensures opens { j ≤ length (state self.now).records → OpensAt result (state self.now) }
    {
        Place {
            line: self.line_of(j),
            number: j,
        }
    }

    // Where the record at a place ends that is moved to line `q`.
    pub(crate) fn end_at_line(&self, from: Place, q: usize) -> Place
        requires stands { StandsAt from (state self.now) }
        requires target { q < length (state self.now).lines }
        ensures ends { EndsAt from result (state self.now) }
        ensures line { result.line ≡ q }
        ensures below { result.number < length (state self.now).records }
    {
        let number = if q <= from.line {
            self.records_before(q)
        } else {
            // The count shows that the sum fits, and is never the lesser.
            let n = self.line_count();
            self.records_before((q + 1).min(n)) - 1
        };
        Place { line: q, number }
    }

    // Where the record at a place ends that is moved to be record `k`.
    pub(crate) fn end_at_record(&self, from: Place, k: usize) -> Place
        requires stands { StandsAt from (state self.now) }
        requires target { k < length (state self.now).records }
        ensures ends { EndsAt from result (state self.now) }
        ensures line { result.line ≡ place_for k (remove (state self.now).lines from.line) }
        ensures number { result.number ≡ k }
    {
        let line = if k < from.number {
            self.line_of(k)
        } else {
            // The count shows that the sum fits, and is never the lesser.
            let m = self.record_count();
            self.line_of((k + 1).min(m)) - 1
        };
        Place { line, number: k }
    }

    // How many of the first `p` lines are records.
    fn records_before(&self, p: usize) -> usize
        ensures value { result ≡ records_before p (state self.now).lines }
        ensures within { result ≤ length (state self.now).records }
        ensures below { is_record (item (state self.now).lines p) ≡ true → result < length (state self.now).records }
    {
        let lines = self.lines.as_slice();
        lines.iter().take(p).filter(|line| line.is_record()).count()
    }

    // The position of the record line that has `j` record lines before it, or the end. Counted down here, since of a `filter` with
    // `nth` the proof did not close.
    fn line_of(&self, j: usize) -> usize
        ensures value { result ≡ line_of j (state self.now).lines }
        ensures place { result ≡ place_for j (state self.now).lines }
        ensures within { result ≤ length (state self.now).lines }
        ensures number { j ≤ length (state self.now).records → j ≡ records_before result (state self.now).lines }
        ensures found { j < length (state self.now).records → (result < length (state self.now).lines) × (is_record (item (state self.now).lines result) ≡ true) }
    {
        let lines = self.lines.as_slice();
        let mut left = j;
        for (i, line) in lines.iter().enumerate() {
            if line.is_record() {
                if left == 0 {
                    return i;
                }
                left -= 1;
            }
        }
        lines.len()
    }
}
