// Playing a frame.
ghost use Rattle.std.specs.Prelude.{◌≡◌};
ghost use Rattle.kinds.specs.declared.side.Side.TheVariants.{Left, Right};
ghost use Rattle.frames.specs.Edits.{edit};
ghost use Rattle.documents.specs.Attempts.{given, attempt};
ghost use Rattle.pair.specs.Frames.{Short};
ghost use Rattle.pair.specs.State.{state, OneBuild, Plays};

use crate::cells::{CellChange, remark};
use crate::pair::Pair;
use documents::fault::Fault;
use frames::frame::{Frame, Operation};
use frames::refusal::FrameRefusal;
use kinds::side::Side;
use links::rows::Rows;

impl<'a, R: Rows> Pair<'a, R> {
    // Plays an operation from the sheet.
    fn play_sheet(&mut self, operation: Operation<'_>) -> Result<Operation<'static>, Fault>
        requires { Short (edit operation) }
        ensures { Plays (given R.Rows.columns Left (edit operation.entry) (state self.old)) self.old result self.new }
    {
        match operation {
            Operation::Keep => Ok(Operation::Keep),
            Operation::Insert { at } => self.insert_line(at),
            Operation::Remark { at, text } => self.insert_remark(at, remark(text)),
            Operation::Delete { at } => self.delete_line(at),
            Operation::Move { from, to } => self.move_line(from, to),
            Operation::Change { at, column, change } => {
                self.change_line(CellChange::new(at, column, change))
            }
        }
    }

    // Plays an operation from the table.
    fn play_table(&mut self, operation: Operation<'_>) -> Result<Operation<'static>, Fault>
        ensures { Plays (given R.Rows.columns Right (edit operation.entry) (state self.old)) self.old result self.new }
    {
        match operation {
            Operation::Keep => Ok(Operation::Keep),
            Operation::Insert { at } => self.insert_record(at),
            Operation::Remark { .. } => Err(Fault::NotAFrame(FrameRefusal::RemarkFromTable)),
            Operation::Delete { at } => self.delete_record(at),
            Operation::Move { from, to } => self.move_record(from, to),
            Operation::Change { at, column, change } => {
                self.change_record(CellChange::new(at, column, change))
            }
        }
    }

    // Plays bytes as a frame, and answers its translation. A refusal leaves everything as it was.
    pub fn play(&mut self, bytes: &[u8]) -> Result<Operation<'static>, Fault>
        ensures plays { Plays (attempt R.Rows.columns (state self.old) bytes.now) self.old result self.new }
        ensures stays { (self.new.size ≡ self.old.size) × (self.new.blank ≡ self.old.blank) }
        ensures builds { OneBuild R.Rows.columns self.old → OneBuild R.Rows.columns self.new }
    {
        let said = Frame::read(bytes)?;
        match said.side {
            Side::Left => self.play_sheet(said.operation),
            Side::Right => self.play_table(said.operation),
        }
    }
}
