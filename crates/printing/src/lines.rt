// The lines of a day's report.
ghost use Rattle.std.specs.Prelude.{◌≡◌, ◌≤◌, length};
ghost use Rattle.documents.specs.Documents.{line, text_of};
ghost use Rattle.printing.specs.Printing.{Prints};
ghost use Rattle.printing.specs.Texts.{refusal_line, sheet_head, sheet_line, table_head, record_text, remark_text, end_line};

use crate::refusal::PrintRefusal;
use crate::text::Text;
use documents::line::{Line, Remark};

// Prints that a line of the log is refused, with the refusal's number.
pub fn print_refusal(line: u64, number: u8, buffer: &mut [u8]) -> Result<usize, PrintRefusal>
    ensures { Prints (refusal_line line number) buffer.old buffer.new result }
{
    Text::new()
        .with(b"! ")
        .with_number(line, b' ')
        .with_number(number, b'\n')
        .put(buffer)
}

// Prints the head of the sheet, with the count of its lines.
pub fn print_sheet_head(count: usize, buffer: &mut [u8]) -> Result<usize, PrintRefusal>
    ensures { Prints (sheet_head count) buffer.old buffer.new result }
{
    Text::new()
        .with(b"LEFT ")
        .with_number(count, b'\n')
        .put(buffer)
}

// Prints a line of the sheet.
pub fn print_sheet_line(stored: &Line, buffer: &mut [u8]) -> Result<usize, PrintRefusal>
    ensures { Prints (sheet_line (line stored.now)) buffer.old buffer.new result }
{
    match stored {
        Line::Record(row) => print_record(row, buffer),
        Line::Remark(remark) => print_remark(remark, buffer),
    }
}

// Prints the head of the table, with the count of its records.
pub fn print_table_head(count: usize, buffer: &mut [u8]) -> Result<usize, PrintRefusal>
    ensures { Prints (table_head count) buffer.old buffer.new result }
{
    Text::new()
        .with(b"RIGHT ")
        .with_number(count, b'\n')
        .put(buffer)
}

// Prints a record, of either document.
pub fn print_record(row: &[u32; 4], buffer: &mut [u8]) -> Result<usize, PrintRefusal>
    ensures { Prints (record_text row.now) buffer.old buffer.new result }
{
    let [first, second, third, fourth] = *row;
    Text::new()
        .with_number(first, b' ')
        .with_number(second, b' ')
        .with_number(third, b' ')
        .with_number(fourth, b'\n')
        .put(buffer)
}

// Prints a remark.
fn print_remark(remark: &Remark, buffer: &mut [u8]) -> Result<usize, PrintRefusal>
    ensures { Prints (remark_text (text_of remark.now)) buffer.old buffer.new result }
{
    let length = usize::from(remark.len).min(remark.bytes.len());
    Text::new()
        .with(b"# ")
        .with(&remark.bytes[..length])
        .with(b"\n")
        .put(buffer)
}

// Prints the end of the report, with the counts of the frames that were accepted and refused.
pub fn print_end(accepted: u64, refused: u64, buffer: &mut [u8]) -> Result<usize, PrintRefusal>
    ensures { Prints (end_line accepted refused) buffer.old buffer.new result }
{
    Text::new()
        .with(b"END ")
        .with_number(accepted, b' ')
        .with_number(refused, b'\n')
        .put(buffer)
}
