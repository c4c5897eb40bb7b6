// Four links of any types, side by side.
ghost use Rattle.std.specs.Prelude.{◌≡◌};
ghost use Rattle.links.specs.Laws.{from, link_after};
ghost use Rattle.links.specs.Columns.{column_at, of_four, column_answer, four, row};
ghost use Rattle.links.specs.ColumnsLemmas.{row_lawful};

use crate::link::Link;
use crate::refusal::CarryRefusal;
use crate::rows::{ColumnFault, Rows};
use kinds::change::Change;
use kinds::kind::Kind;
use kinds::side::Side;

// The links of columns 0 to 3.
#[derive(Clone, Copy)]
pub struct Row<P0, P1, P2, P3> {
    pub first: P0,
    pub second: P1,
    pub third: P2,
    pub fourth: P3,
}

impl<P0: Link, P1: Link, P2: Link, P3: Link> Row<P0, P1, P2, P3> {
    // Four links side by side.
    pub fn new(first: P0, second: P1, third: P2, fourth: P3) -> Row<P0, P1, P2, P3>
        ensures { result ≡ row first second third fourth }
    {
        Row {
            first,
            second,
            third,
            fourth,
        }
    }
}

// The place of a link in the row.
#[derive(Clone, Copy)]
enum Column {
    First,
    Second,
    Third,
    Fourth,
}

// The column that has a number, of which there are four.
impl TryFrom<u8> for Column {
    type Error = ColumnFault;

    ghost try_from_gives = { λ number answer. answer ≡ of_four number (column_at number) };

    fn try_from(number: u8) -> Result<Column, ColumnFault> {
        match number {
            0 => Ok(Column::First),
            1 => Ok(Column::Second),
            2 => Ok(Column::Third),
            3 => Ok(Column::Fourth),
            _ => Err(ColumnFault {
                column: number,
                refusal: CarryRefusal::NotOfKind,
            }),
        }
    }
}

// The kind of a side of a link.
fn kind_of<L: Link>(link: &L, side: Side) -> Kind
    ensures { result ≡ (from side L.Link.lens).near link.now }
{
    match side {
        Side::Left => link.left_kind(),
        Side::Right => link.right_kind(),
    }
}

// Carries a change through a link, and names the column where the link refuses.
fn carry_in<L: Link>(
    link: &mut L,
    side: Side,
    column: u8,
    change: Change,
) -> Result<Change, ColumnFault>
    ensures answers { result ≡ column_answer column ((from side L.Link.lens).carry link.old change) }
    ensures leaves { link.new ≡ link_after link.old ((from side L.Link.lens).carry link.old change) }
{
    let answer = match side {
        Side::Left => link.carry_right(change),
        Side::Right => link.carry_left(change),
    };
    answer.map_err(|refusal| ColumnFault { column, refusal })
}

// `kind` and `carry` each pick the link by a match: the four links have four types, so that no closure takes them all, and a
// `dyn Link` made of a value of a type parameter gets no proof.
impl<P0: Link, P1: Link, P2: Link, P3: Link> Rows for Row<P0, P1, P2, P3> {
    ghost columns = { four P0.Link.lens P1.Link.lens P2.Link.lens P3.Link.lens };

    ghost lawful = { row_lawful P0.Link.lens P0.Link.lawful P1.Link.lens P1.Link.lawful P2.Link.lens P2.Link.lawful P3.Link.lens P3.Link.lawful };

    fn kind(&self, side: Side, column: u8) -> Result<Kind, ColumnFault> {
        Ok(match Column::try_from(column)? {
            Column::First => kind_of(&self.first, side),
            Column::Second => kind_of(&self.second, side),
            Column::Third => kind_of(&self.third, side),
            Column::Fourth => kind_of(&self.fourth, side),
        })
    }

    fn reset(&mut self) {
        self.first.reset();
        self.second.reset();
        self.third.reset();
        self.fourth.reset();
    }

    fn carry(&mut self, side: Side, column: u8, change: Change) -> Result<Change, ColumnFault> {
        match Column::try_from(column)? {
            Column::First => carry_in(&mut self.first, side, column, change),
            Column::Second => carry_in(&mut self.second, side, column, change),
            Column::Third => carry_in(&mut self.third, side, column, change),
            Column::Fourth => carry_in(&mut self.fourth, side, column, change),
        }
    }
}
