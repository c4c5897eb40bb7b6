// Operations from the table. Insertions and changes are those of the sheet with the sides exchanged: one function for both would
// match on the side for the length, for the place and for the answer, and is no plainer.
ghost use Rattle.kinds.specs.declared.side.Side.TheVariants.{Right};
ghost use Rattle.frames.specs.Edits.{insert, delete, move, change};
ghost use Rattle.documents.specs.Attempts.{given};
ghost use Rattle.pair.specs.State.{state, Plays};

use crate::cells::CellChange;
use crate::pair::Pair;
use crate::pair::reading::in_document;
use documents::fault::Fault;
use frames::frame::Operation;
use kinds::side::Side;
use links::rows::Rows;

impl<'a, R: Rows> Pair<'a, R> {
    // Inserts a record as record `j`.
    pub(crate) fn insert_record(&mut self, j: usize) -> Result<Operation<'static>, Fault>
        ensures { Plays (given R.Rows.columns Right (insert j) (state self.old)) self.old result self.new }
    {
        self.may_insert(j, self.record_count())?;
        let place = self.place_of_record(j);
        self.add(place);
        Ok(Operation::Insert { at: place.line })
    }

    // Deletes record `j`.
    pub(crate) fn delete_record(&mut self, j: usize) -> Result<Operation<'static>, Fault>
        ensures { Plays (given R.Rows.columns Right (delete j) (state self.old)) self.old result self.new }
    {
        in_document(j, self.record_count())?;
        let place = self.place_of_record(j);
        self.take_out(place);
        Ok(Operation::Delete { at: place.line })
    }

    // Moves record `j` so that it ends as record `k`.
    pub(crate) fn move_record(&mut self, j: usize, k: usize) -> Result<Operation<'static>, Fault>
        ensures { Plays (given R.Rows.columns Right (move j k) (state self.old)) self.old result self.new }
    {
        in_document(j, self.record_count())?;
        in_document(k, self.record_count())?;
        if j == k {
            return Ok(Operation::Keep);
        }
        let from = self.place_of_record(j);
        let to = self.end_at_record(from, k);
        self.shift(from, to);
        Ok(Operation::Move {
            from: from.line,
            to: to.line,
        })
    }

    // Changes a cell of a record.
    pub(crate) fn change_record(&mut self, edit: CellChange) -> Result<Operation<'static>, Fault>
        ensures { Plays (given R.Rows.columns Right (change edit.position edit.column edit.change) (state self.old)) self.old result self.new }
    {
        let y = self.try_change(Side::Right, edit.position, edit)?;
        let place = self.place_of_record(edit.position);
        let (change, link) = self.carried(Side::Right, edit.position, edit)?;
        let carried = CellChange { change, ..edit };
        let x = self.retry_change(Side::Left, place.line, carried)?;
        self.put(place, x, y, link);
        Ok(carried.operation(place.line))
    }
}
