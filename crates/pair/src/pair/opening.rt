// Opening a pair.
ghost use Rattle.std.specs.Prelude.{◌≡◌, length, replicate};
ghost use Rattle.slots.specs.Slots.{table};
ghost use Rattle.documents.specs.Attempts.{opened};
ghost use Rattle.documents.specs.Promise.{Keeps};
ghost use Rattle.pair.specs.State.{state, least, OneBuild};

use crate::pair::Pair;
use documents::line::Line;
use links::rows::Rows;
use slots::SlotList;

// The most lines of a sheet.
const MOST_LINES: usize = 256;

impl<'a, R: Rows> Pair<'a, R> {
    // Opens a pair over lent slots, both documents empty. It holds as many lines as the shortest of the three has slots, and
    // at most 256.
    pub fn open(
        lines: &'a mut [Line],
        records: &'a mut [[u32; 4]],
        links: &'a mut [R],
        pattern: R,
    ) -> Pair<'a, R>
        ensures opened { state result ≡ opened R.Rows.columns (least lines.old records.old links.old) pattern }
        ensures reset { table result.links ≡ replicate (length links.old) (R.Rows.columns.fresh pattern) }
        ensures blank { R.Rows.columns.fresh result.blank ≡ R.Rows.columns.fresh pattern }
        ensures builds { OneBuild R.Rows.columns result }
        ensures promise { Keeps R.Rows.columns (least lines.old records.old links.old) pattern }
    {
        let slots = lines.len().min(records.len()).min(links.len());
        let size = slots.min(MOST_LINES);
        let mut blank = pattern;
        blank.reset();
        // Not `fill`, which clones: nothing says that a row's clone is the row.
        links.fill_with(|| blank);
        Pair {
            size,
            blank,
            lines: SlotList::over(lines),
            records: SlotList::over(records),
            links: SlotList::over(links),
        }
    }
}
