// A label of eight bits, read from the other end.
ghost use Rattle.std.specs.Prelude.{◌≡◌};
ghost use Rattle.supplied.specs.Memoryless.{byte, relabel, label};
ghost use Rattle.supplied.specs.MemorylessLemmas.{label_lawful};

use kinds::change::Change;
use kinds::kind::{Kind, Letter};
use links::admit::admit;
use links::link::Link;
use links::refusal::CarryRefusal;

// The right value is the left value with its eight bits in reverse order.
#[derive(Clone, Copy)]
pub struct Label;

// The kind of a label: one of 256 choices.
fn byte() -> Kind
    ensures { result ≡ byte }
{
    Kind {
        letter: Letter::Choice,
        limit: 255,
    }
}

// The change of a label, with the bits of the label in reverse order.
fn relabel(change: Change) -> Result<Change, CarryRefusal>
    ensures { result ≡ relabel change }
{
    match admit(byte(), change)? {
        Change::Set(choice) => Ok(Change::Set(u32::from((choice as u8).reverse_bits()))),
        other => Ok(other),
    }
}

impl Link for Label {
    ghost lens = { label };

    ghost lawful = { label_lawful };

    fn reset(&mut self) {}

    fn left_kind(&self) -> Kind {
        byte()
    }

    fn right_kind(&self) -> Kind {
        byte()
    }

    fn carry_right(&mut self, change: Change) -> Result<Change, CarryRefusal> {
        relabel(change)
    }

    fn carry_left(&mut self, change: Change) -> Result<Change, CarryRefusal> {
        relabel(change)
    }
}
