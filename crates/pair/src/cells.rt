// Answers of kinds and links as a pair gives them, and what is put together of them.
ghost use Rattle.std.specs.Prelude.{◌≡◌, ◌≤◌, length};
ghost use Rattle.frames.specs.Edits.{edit};
ghost use Rattle.documents.specs.Faults.{kind_fault, link_fault};
ghost use Rattle.documents.specs.Across.{change_at};
ghost use Rattle.documents.specs.Attempts.{kind_answer};
ghost use Rattle.pair.specs.Cells.{column_told};
ghost use Rattle.pair.specs.Written.{text};

use documents::fault::Fault;
use documents::line::Remark;
use frames::frame::Operation;
use kinds::change::Change;
use kinds::refusal::Refusal;
use links::refusal::CarryRefusal;
use links::rows::ColumnFault;

// A change of a cell, with the position that its refusals are told at.
#[derive(Clone, Copy)]
pub(crate) struct CellChange {
    pub position: usize,
    pub column: u8,
    pub change: Change,
}

impl CellChange {
    // The change of a column, told at a position.
    pub(crate) fn new(position: usize, column: u8, change: Change) -> CellChange
        ensures { result ≡ record { position = position; column = column; change = change } }
    {
        CellChange {
            position,
            column,
            change,
        }
    }

    // The operation that makes the change in the record at a position.
    pub(crate) fn operation(self, at: usize) -> Operation<'static>
        ensures { edit result ≡ change_at at self.column self.change }
    {
        match self.change {
            Change::Keep => Operation::Keep,
            change => Operation::Change {
                at,
                column: self.column,
                change,
            },
        }
    }
}

// What a link's refusal is at a position.
fn link_fault(position: usize, fault: ColumnFault) -> Fault
    ensures { result ≡ link_fault position fault.column fault.refusal }
{
    let column = fault.column;
    match fault.refusal {
        CarryRefusal::NotOfKind => Fault::NotOfKind { position, column },
        CarryRefusal::NoTranslation => Fault::NoTranslation { position, column },
    }
}

// What a kind's refusal is at a position and a column.
fn kind_fault(position: usize, column: u8, refusal: Refusal) -> Fault
    ensures { result ≡ kind_fault position column refusal }
{
    match refusal {
        Refusal::NotOfKind | Refusal::NoSuchKind => Fault::NotOfKind { position, column },
        Refusal::DoesNotApply => Fault::DoesNotApply { position, column },
    }
}

// What a row of links answers; a refusal is told at a position.
pub(crate) fn in_column<X: Copy>(
    answer: Result<X, ColumnFault>,
    position: usize,
) -> Result<X, Fault>
    ensures { result ≡ column_told position answer }
{
    answer.map_err(|fault| link_fault(position, fault))
}

// What a kind answers to a change of a cell; a refusal is told at its position and its column.
pub(crate) fn of_kind(answer: Result<u32, Refusal>, edit: CellChange) -> Result<u32, Fault>
    ensures { result ≡ kind_answer edit.position edit.column answer }
{
    answer.map_err(|refusal| kind_fault(edit.position, edit.column, refusal))
}

// A text of at most 24 bytes, as a remark. Not a `TryFrom`: no frame has a longer text, so there is nothing to refuse.
pub(crate) fn remark(words: &[u8]) -> Remark
    requires { length words.now ≤ 24 }
    ensures { text result ≡ words.now }
{
    let len = words.len();
    let mut bytes = [0u8; 24];
    bytes[..len].copy_from_slice(words);
    Remark {
        len: len as u8,
        bytes,
    }
}
