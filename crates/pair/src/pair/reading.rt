// What a pair holds.
ghost use Rattle.std.specs.Prelude.{◌≡◌, length, nat_lt};
ghost use Rattle.kinds.specs.Answers.{need, test};
ghost use Rattle.slots.specs.Slots.{items};
ghost use Rattle.documents.specs.declared.fault.Fault.TheVariants.{NotInDocument};
ghost use Rattle.documents.specs.Documents.{item, line};
ghost use Rattle.pair.specs.Cells.{mapped};
ghost use Rattle.pair.specs.Places.{may_insert};
ghost use Rattle.pair.specs.State.{state};

use crate::pair::Pair;
use documents::fault::Fault;
use documents::line::Line;
use links::rows::Rows;
use slots::SlotList;

// The item of a list at a position; a refusal is told at another position.
pub(crate) fn item_at<T: Copy>(list: &SlotList<'_, T>, at: usize, told: usize) -> Result<T, Fault>
    ensures { result ≡ need (item (items list.now) at) (NotInDocument told) }
{
    list.get(at)
        .map_err(|_| Fault::NotInDocument { position: told })
}

// Refuses a position that is not in a document of so many items.
pub(crate) fn in_document(at: usize, length: usize) -> Result<(), Fault>
    ensures { result ≡ test (nat_lt at length) (NotInDocument at) }
{
    if at >= length {
        return Err(Fault::NotInDocument { position: at });
    }
    Ok(())
}

impl<'a, R: Rows> Pair<'a, R> {
    // The most lines that the sheet may have.
    pub fn size(&self) -> usize
        ensures { result ≡ (state self.now).size }
    {
        self.size
    }

    // How many lines the sheet has.
    pub fn line_count(&self) -> usize
        ensures { result ≡ length (state self.now).lines }
    {
        self.lines.len()
    }

    // How many records the table has.
    pub fn record_count(&self) -> usize
        ensures { result ≡ length (state self.now).records }
    {
        self.records.len()
    }

    // The line at a position.
    pub fn line(&self, at: usize) -> Result<Line, Fault>
        ensures { mapped line result ≡ need (item (state self.now).lines at) (NotInDocument at) }
    {
        item_at(&self.lines, at, at)
    }

    // The record at a position.
    pub fn record(&self, at: usize) -> Result<[u32; 4], Fault>
        ensures { result ≡ need (item (state self.now).records at) (NotInDocument at) }
    {
        item_at(&self.records, at, at)
    }

    // Refuses a new item past the end of a document of so many items, and one that the sheet has no room for.
    pub(crate) fn may_insert(&self, at: usize, length: usize) -> Result<(), Fault>
        ensures { result ≡ may_insert at length (state self.now) }
    {
        if at > length {
            return Err(Fault::NotInDocument { position: at });
        }
        if self.line_count() >= self.size {
            return Err(Fault::SheetFull { position: at });
        }
        Ok(())
    }
}
