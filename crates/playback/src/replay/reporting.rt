// Printing a day once its log has ended.
ghost use Rattle.documents.specs.Documents.{item};
ghost use Rattle.printing.specs.Printing.{PrintsAt};
ghost use Rattle.playback.specs.Printed.{report_lines, table_lines};
ghost use Rattle.playback.specs.States.{day};

use crate::replay::Replay;
use links::rows::Rows;
use printing::lines::{
    print_end, print_record, print_sheet_head, print_sheet_line, print_table_head,
};
use printing::refusal::PrintRefusal;

impl<'p, 'a, R: Rows> Replay<'p, 'a, R> {
    // Prints one line of the day's report, which has the sheet with its head, the table with its head, and the counts.
    pub fn print(&self, at: usize, buffer: &mut [u8]) -> Result<usize, PrintRefusal>
        ensures { PrintsAt (item (report_lines (day self.now)) at) buffer.old buffer.new result }
    {
        let lines = self.pair.line_count();
        let Some(at) = at.checked_sub(1) else {
            return print_sheet_head(lines, buffer);
        };
        match self.pair.line(at) {
            Ok(line) => print_sheet_line(&line, buffer),
            Err(_) => self.print_table(at - lines, buffer),
        }
    }

    // Prints one line of what comes after the sheet.
    fn print_table(&self, at: usize, buffer: &mut [u8]) -> Result<usize, PrintRefusal>
        ensures { PrintsAt (item (table_lines (day self.now)) at) buffer.old buffer.new result }
    {
        let records = self.pair.record_count();
        let Some(at) = at.checked_sub(1) else {
            return print_table_head(records, buffer);
        };
        match self.pair.record(at) {
            Ok(record) => print_record(&record, buffer),
            Err(_) if at == records => print_end(self.accepted, self.refused, buffer),
            Err(_) => Err(PrintRefusal::NoSuchLine),
        }
    }
}
