// Edits of the sheet, the table and the row links at once.
ghost use Rattle.std.specs.Prelude.{◌≡◌, ◌<◌, ◌≤◌, false, length};
ghost use Rattle.documents.specs.Documents.{item};
ghost use Rattle.documents.specs.Across.{is_record};
ghost use Rattle.pair.specs.Written.{text};
ghost use Rattle.pair.specs.Edits.{with_record, with_remark, with_rows, without_record, without_remark, moved_record, moved_remark};
ghost use Rattle.pair.specs.Places.{StandsAt, OpensAt, EndsAt};
ghost use Rattle.pair.specs.State.{state, SlotsFrom};

use crate::pair::Pair;
use crate::pair::places::Place;
use documents::line::{Line, Remark};
use links::rows::Rows;

impl<'a, R: Rows> Pair<'a, R> {
    // Adds a record of zeros at a place.
    pub(crate) fn add(&mut self, at: Place)
        requires place { OpensAt at (state self.old) }
        requires room { length (state self.old).lines < self.old.size }
        ensures makes { state self.new ≡ with_record at (state self.old) }
        ensures links_from { SlotsFrom self.old.links self.new.links }
    {
        let zeros = [0u32; 4];
        let blank = self.blank;
        let _ = self.lines.insert(at.line, Line::Record(zeros));
        let _ = self.records.insert(at.number, zeros);
        let _ = self.links.insert(at.number, blank);
    }

    // Adds a remark as line `p`.
    pub(crate) fn add_remark(&mut self, p: usize, remark: Remark)
        requires place { p ≤ length (state self.old).lines }
        requires room { length (state self.old).lines < self.old.size }
        ensures makes { state self.new ≡ with_remark p (text remark) (state self.old) }
        ensures links_from { SlotsFrom self.old.links self.new.links }
    {
        let _ = self.lines.insert(p, Line::Remark(remark));
    }

    // Puts other rows and another link in the place of those of the record at a place.
    pub(crate) fn put(&mut self, at: Place, x: [u32; 4], y: [u32; 4], link: R)
        requires { StandsAt at (state self.old) }
        ensures makes { state self.new ≡ with_rows at x y link (state self.old) }
        ensures links_from { SlotsFrom self.old.links self.new.links }
    {
        let _ = self.lines.set(at.line, Line::Record(x));
        let _ = self.records.set(at.number, y);
        let _ = self.links.set(at.number, link);
    }

    // Takes out the record at a place.
    pub(crate) fn take_out(&mut self, at: Place)
        requires { StandsAt at (state self.old) }
        ensures makes { state self.new ≡ without_record at (state self.old) }
        ensures links_from { SlotsFrom self.old.links self.new.links }
    {
        let _ = self.lines.remove(at.line);
        let _ = self.records.remove(at.number);
        let _ = self.links.remove(at.number);
    }

    // Takes out a remark, which is line `p`.
    pub(crate) fn drop_remark(&mut self, p: usize)
        requires place { p < length (state self.old).lines }
        requires line { is_record (item (state self.old).lines p) ≡ false }
        ensures makes { state self.new ≡ without_remark p (state self.old) }
        ensures links_from { SlotsFrom self.old.links self.new.links }
    {
        let _ = self.lines.remove(p);
    }

    // Moves the record at one place so that it ends at another.
    pub(crate) fn shift(&mut self, from: Place, to: Place)
        requires from { StandsAt from (state self.old) }
        requires to { EndsAt from to (state self.old) }
        ensures makes { state self.new ≡ moved_record from to (state self.old) }
        ensures links_from { SlotsFrom self.old.links self.new.links }
    {
        let _ = self.lines.move_item(from.line, to.line);
        let _ = self.records.move_item(from.number, to.number);
        let _ = self.links.move_item(from.number, to.number);
    }

    // Moves a remark from line `p` to line `q`.
    pub(crate) fn shift_remark(&mut self, p: usize, q: usize)
        requires place { p < length (state self.old).lines }
        requires target { q < length (state self.old).lines }
        requires line { is_record (item (state self.old).lines p) ≡ false }
        ensures makes { state self.new ≡ moved_remark p q (state self.old) }
        ensures links_from { SlotsFrom self.old.links self.new.links }
    {
        let _ = self.lines.move_item(p, q);
    }
}
