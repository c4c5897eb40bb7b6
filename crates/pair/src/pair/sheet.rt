// Operations from the sheet.
ghost use Rattle.kinds.specs.declared.side.Side.TheVariants.{Left};
ghost use Rattle.frames.specs.Edits.{insert, remark, delete, move, change};
ghost use Rattle.documents.specs.Attempts.{given};
ghost use Rattle.pair.specs.Written.{text};
ghost use Rattle.pair.specs.State.{state, Plays};

use crate::cells::CellChange;
use crate::pair::Pair;
use crate::pair::reading::in_document;
use documents::fault::Fault;
use documents::line::Remark;
use frames::frame::Operation;
use kinds::side::Side;
use links::rows::Rows;

impl<'a, R: Rows> Pair<'a, R> {
    // Inserts a record as line `p`.
    pub(crate) fn insert_line(&mut self, p: usize) -> Result<Operation<'static>, Fault>
        ensures { Plays (given R.Rows.columns Left (insert p) (state self.old)) self.old result self.new }
    {
        self.may_insert(p, self.line_count())?;
        let place = self.place_of_line(p);
        self.add(place);
        Ok(Operation::Insert { at: place.number })
    }

    // Inserts a remark as line `p`.
    pub(crate) fn insert_remark(
        &mut self,
        p: usize,
        words: Remark,
    ) -> Result<Operation<'static>, Fault>
        ensures { Plays (given R.Rows.columns Left (remark p (text words)) (state self.old)) self.old result self.new }
    {
        self.may_insert(p, self.line_count())?;
        self.add_remark(p, words);
        Ok(Operation::Keep)
    }

    // Deletes line `p`.
    pub(crate) fn delete_line(&mut self, p: usize) -> Result<Operation<'static>, Fault>
        ensures { Plays (given R.Rows.columns Left (delete p) (state self.old)) self.old result self.new }
    {
        in_document(p, self.line_count())?;
        if self.is_record(p) {
            let place = self.place_of_line(p);
            self.take_out(place);
            Ok(Operation::Delete { at: place.number })
        } else {
            self.drop_remark(p);
            Ok(Operation::Keep)
        }
    }

    // Moves line `p` so that it ends as line `q`.
    pub(crate) fn move_line(&mut self, p: usize, q: usize) -> Result<Operation<'static>, Fault>
        ensures { Plays (given R.Rows.columns Left (move p q) (state self.old)) self.old result self.new }
    {
        in_document(p, self.line_count())?;
        in_document(q, self.line_count())?;
        if self.is_record(p) {
            let from = self.place_of_line(p);
            let to = self.end_at_line(from, q);
            self.shift(from, to);
            if from.number == to.number {
                Ok(Operation::Keep)
            } else {
                Ok(Operation::Move {
                    from: from.number,
                    to: to.number,
                })
            }
        } else {
            self.shift_remark(p, q);
            Ok(Operation::Keep)
        }
    }

    // Changes a cell of a record line.
    pub(crate) fn change_line(&mut self, edit: CellChange) -> Result<Operation<'static>, Fault>
        ensures { Plays (given R.Rows.columns Left (change edit.position edit.column edit.change) (state self.old)) self.old result self.new }
    {
        let x = self.try_change(Side::Left, edit.position, edit)?;
        let place = self.place_of_line(edit.position);
        let (change, link) = self.carried(Side::Left, place.number, edit)?;
        let carried = CellChange { change, ..edit };
        let y = self.retry_change(Side::Right, place.number, carried)?;
        self.put(place, x, y, link);
        Ok(carried.operation(place.number))
    }
}
