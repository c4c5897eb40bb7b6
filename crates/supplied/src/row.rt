// The row of links that is supplied.
ghost use Rattle.std.specs.Prelude.{◌≡◌};
ghost use Rattle.supplied.specs.Supplied.{SuppliedKinds, supplied_row};

use crate::carry::Carry;
use crate::label::Label;
use crate::low::Low;
use crate::private::Private;
use kinds::kind::{Kind, Letter};
use links::chain::Chain;
use links::flip::Flip;
use links::row::Row;

// A label, an amount in two steps of lots, the low bits of flags, and a choice that only the right side sees.
pub type SuppliedRow = Row<Label, Chain<Carry, Carry>, Low, Flip<Private>>;

// The supplied row, just reset.
pub fn supplied_row() -> SuppliedRow
    ensures row { result ≡ supplied_row }
    ensures kinds { SuppliedKinds result }
{
    Row {
        first: Label,
        second: Chain {
            first: Carry {
                ratio: 1_000,
                limit: 1_999_999,
                rest: 0,
            },
            second: Carry {
                ratio: 20,
                limit: 99_999,
                rest: 0,
            },
        },
        third: Low { kept: 4, width: 16 },
        fourth: Flip {
            inner: Private {
                kind: Kind {
                    letter: Letter::Choice,
                    limit: 15,
                },
            },
        },
    }
}
