// Changes tried on a document and carried by a link.
ghost use Rattle.std.specs.Prelude.{◌≡◌, Ok, Err};
ghost use Rattle.kinds.specs.declared.side.Side.TheVariants.{Left};
ghost use Rattle.frames.specs.Edits.{change};
ghost use Rattle.documents.specs.Documents.{form};
ghost use Rattle.documents.specs.Across.{change_at};
ghost use Rattle.documents.specs.Attempts.{document, kinds};
ghost use Rattle.pair.specs.Cells.{mapped, row_at, cell_changed, carried_by};
ghost use Rattle.pair.specs.Edits.{tried_on, with_row};
ghost use Rattle.pair.specs.Places.{HasRecord};
ghost use Rattle.pair.specs.State.{state};

use crate::cells::{CellChange, in_column, of_kind};
use crate::pair::Pair;
use crate::pair::reading::item_at;
use documents::fault::Fault;
use kinds::change::Change;
use kinds::side::Side;
use links::rows::Rows;

impl<'a, R: Rows> Pair<'a, R> {
    // The row of line `p`; a refusal is told at another position.
    fn line_row(&self, p: usize, told: usize) -> Result<[u32; 4], Fault>
        ensures { result ≡ row_at (form Left) told p (state self.now).lines }
    {
        let line = item_at(&self.lines, p, told)?;
        line.row().ok_or(Fault::NotARecord { position: told })
    }

    // The row of a side's record at a position; a refusal is told at another position.
    fn row(&self, side: Side, at: usize, told: usize) -> Result<[u32; 4], Fault>
        ensures value { result ≡ row_at (form side) told at (document side (state self.now)) }
        ensures there { elim result [ Ok _ ↦ HasRecord side at (state self.now) | Err _ ↦ Unit {0} ] }
    {
        match side {
            Side::Left => self.line_row(at, told),
            Side::Right => item_at(&self.records, at, told),
        }
    }

    // A side's row with a cell changed.
    pub(crate) fn changed(
        &self,
        side: Side,
        mut row: [u32; 4],
        edit: CellChange,
    ) -> Result<[u32; 4], Fault>
        ensures { result ≡ cell_changed (kinds R.Rows.columns side (state self.now)) edit.position edit.column edit.change row }
    {
        let kind = in_column(self.blank.kind(side, edit.column), edit.position)?;
        let column = usize::from(edit.column);
        row[column] = of_kind(kind.apply(edit.change, row[column]), edit)?;
        Ok(row)
    }

    // The row of a side's record at a position, after a change.
    pub(crate) fn try_change(
        &self,
        side: Side,
        at: usize,
        edit: CellChange,
    ) -> Result<[u32; 4], Fault>
        ensures edited { mapped (with_row side at (state self.now)) result ≡ tried_on R.Rows.columns side edit.position (change at edit.column edit.change) (state self.now) }
        ensures there { elim result [ Ok _ ↦ HasRecord side at (state self.now) | Err _ ↦ Unit {0} ] }
    {
        let row = self.row(side, at, edit.position)?;
        self.changed(side, row, edit)
    }

    // The row of a side's record at a position, after a change that is told.
    pub(crate) fn retry_change(
        &self,
        side: Side,
        at: usize,
        edit: CellChange,
    ) -> Result<[u32; 4], Fault>
        requires { HasRecord side at (state self.now) }
        ensures { mapped (with_row side at (state self.now)) result ≡ tried_on R.Rows.columns side edit.position (change_at at edit.column edit.change) (state self.now) }
    {
        match edit.change {
            Change::Keep => self.row(side, at, edit.position),
            _ => self.try_change(side, at, edit),
        }
    }

    // A side's change carried by the link of record `number`, and that link then.
    pub(crate) fn carried(
        &self,
        side: Side,
        number: usize,
        edit: CellChange,
    ) -> Result<(Change, R), Fault>
        ensures { result ≡ carried_by R.Rows.columns side (state self.now).links number edit.position edit.column edit.change }
    {
        let mut link = item_at(&self.links, number, edit.position)?;
        let change = in_column(link.carry(side, edit.column, edit.change), edit.position)?;
        Ok((change, link))
    }
}
