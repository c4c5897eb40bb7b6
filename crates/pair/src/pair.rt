// A sheet and a table with a row link for each record, in lent slots.
ghost use Rattle.std.specs.Prelude.{◌≡◌, ◌≤◌, length};
ghost use Rattle.slots.specs.Slots.{items, room};
ghost use Rattle.documents.specs.Documents.{records_of};
ghost use Rattle.pair.specs.Written.{written};

use documents::line::Line;
use slots::SlotList;

mod opening;
mod places;
mod playing;
mod reading;
mod sheet;
mod table;
mod trying;
mod writing;

// A new record takes `blank`, the pattern that the pair was opened with, reset; the sheet has at most `size` lines.
// Records and links are two lists, though each record has one link: the caller lends a table of each. No `impl Model`: opening
// and refusals promise something of the slots past the lists too, and a view that keeps those is the fields again.
#[derive(Drop)]
pub struct Pair<'a, R> {
    size: usize,
    blank: R,
    lines: SlotList<'a, Line>,
    records: SlotList<'a, [u32; 4]>,
    links: SlotList<'a, R>,
    ghost counted: { length (records_of (written (items lines))) ≡ length (items records) },
    ghost linked: { length (items links) ≡ length (items records) },
    ghost roomy: { (size ≤ room lines) × (size ≤ room records) × (size ≤ room links) },
}
