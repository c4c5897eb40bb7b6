// Links side by side, one to a column.
ghost use Rattle.std.specs.Prelude.{◌≡◌};
ghost use Rattle.links.specs.Laws.{link_after};
ghost use Rattle.links.specs.Columns.{Columns, LawfulRow, of_four, column_answer};

use crate::refusal::CarryRefusal;
use kinds::change::Change;
use kinds::kind::Kind;
use kinds::side::Side;

// A refusal, and the column that it came from.
#[derive(Clone, Copy, PartialEq, Eq, Debug)]
pub struct ColumnFault {
    pub column: u8,
    pub refusal: CarryRefusal,
}

// A row of links, in columns 0 to 3.
pub trait Rows: Copy {
    // The kinds, the agreement and the carrying of each column, as functions of the row.
    ghost columns: { Columns Self };

    // The kind of a side's values in a column.
    fn kind(&self, side: Side, column: u8) -> Result<Kind, ColumnFault>
        ensures { result ≡ of_four column (columns.kind side column self.now) };

    // Resets each link.
    fn reset(&mut self)
        ensures { self.new ≡ columns.fresh self.old };

    // The change of the other side that answers a change of a side's value in a column.
    fn carry(&mut self, side: Side, column: u8, change: Change) -> Result<Change, ColumnFault>
        ensures answers { result ≡ column_answer column (columns.carry side column self.old change) }
        ensures leaves { self.new ≡ link_after self.old (columns.carry side column self.old change) };

    // What each impl proves: each column is a lawful link, and leaves the others alone.
    ghost lawful: { LawfulRow 4 columns };
}
