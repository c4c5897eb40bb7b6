// Frames, refusals and faults in plain words.
use documents::fault::Fault;
use frames::frame::{Frame, Operation};
use frames::refusal::{FrameRefusal, LineRefusal};
use kinds::change::Change;
use kinds::side::Side;
use std::fmt;

// The last column of a record.
const LAST_COLUMN: u8 = 3;

// A value that is shown in words.
#[derive(Clone, Copy)]
pub struct Words<T>(pub T);

impl fmt::Display for Words<Frame<'_>> {
    fn fmt<W: fmt::Write>(&self, f: &mut fmt::Formatter<W>) -> fmt::Result {
        let side = Words(self.0.side);
        let operation = Words(self.0.operation);
        write!(f, "{side}: {operation}")
    }
}

impl fmt::Display for Words<Side> {
    fn fmt<W: fmt::Write>(&self, f: &mut fmt::Formatter<W>) -> fmt::Result {
        f.write_str(match self.0 {
            Side::Left => "sheet",
            Side::Right => "table",
        })
    }
}

fn write_text<W: fmt::Write>(text: &[u8], f: &mut fmt::Formatter<W>) -> fmt::Result {
    for byte in text {
        f.write_char(char::from(*byte))?;
    }
    Ok(())
}

impl fmt::Display for Words<Operation<'_>> {
    fn fmt<W: fmt::Write>(&self, f: &mut fmt::Formatter<W>) -> fmt::Result {
        match self.0 {
            Operation::Keep => write!(f, "keep"),
            Operation::Insert { at } => write!(f, "insert a record at {at}"),
            Operation::Remark { at, text } => {
                write!(f, "insert the remark \"")?;
                write_text(text, f)?;
                write!(f, "\" at {at}")
            }
            Operation::Delete { at } => write!(f, "delete at {at}"),
            Operation::Move { from, to } => write!(f, "move from {from} to {to}"),
            Operation::Change { at, column, change } => {
                let change = Words(change);
                write!(f, "at {at}, column {column}: {change}")
            }
        }
    }
}

impl fmt::Display for Words<Change> {
    fn fmt<W: fmt::Write>(&self, f: &mut fmt::Formatter<W>) -> fmt::Result {
        match self.0 {
            Change::Keep => write!(f, "keep"),
            Change::Add(amount) => write!(f, "add {amount}"),
            Change::Set(choice) => write!(f, "set {choice}"),
            Change::Mask { mask, bits } => {
                write!(f, "set the bits under mask {mask:04X} to {bits:04X}")
            }
        }
    }
}

impl fmt::Display for Words<LineRefusal> {
    fn fmt<W: fmt::Write>(&self, f: &mut fmt::Formatter<W>) -> fmt::Result {
        f.write_str(match self.0 {
            LineRefusal::TooLong => "more than 80 characters",
            LineRefusal::NotHexadecimal => "not pairs of the digits 0-9 and A-F",
            LineRefusal::ShortBuffer => "a buffer shorter than 64 bytes",
        })
    }
}

impl fmt::Display for Words<FrameRefusal> {
    fn fmt<W: fmt::Write>(&self, f: &mut fmt::Formatter<W>) -> fmt::Result {
        f.write_str(match self.0 {
            FrameRefusal::WrongLength => "the length does not fit the operation",
            FrameRefusal::UnknownSide => "the side letter is neither L nor R",
            FrameRefusal::UnknownOperation => {
                "the operation letter is none of K, I, N, D, M and C"
            }
            FrameRefusal::RemarkFromTable => "the table has no remarks",
            FrameRefusal::UnprintableText => "the text has a byte that is not printable",
            FrameRefusal::UnknownChange => "the change letter is none of K, A, S and F",
            FrameRefusal::KeepWithOperand => "a keep has an operand that is not 0",
        })
    }
}

// The reason of a fault. A change above the last column has the number of a change that is not of its column's kind.
fn write_reason<W: fmt::Write>(fault: Fault, f: &mut fmt::Formatter<W>) -> fmt::Result {
    match fault {
        Fault::NotAFrame(refusal) => {
            let reason = Words(refusal);
            write!(f, "not a frame, {reason}")
        }
        Fault::NotInDocument { .. } => f.write_str("the position is not in the document"),
        Fault::SheetFull { .. } => f.write_str("the sheet is full"),
        Fault::NotARecord { .. } => f.write_str("the line is a remark, which has no columns"),
        Fault::NotOfKind { column, .. } if column > LAST_COLUMN => {
            f.write_str("there is no such column")
        }
        Fault::NotOfKind { .. } => f.write_str("the change is not of the column's kind"),
        Fault::DoesNotApply { .. } => f.write_str("the change does not apply to the value"),
        Fault::NoTranslation { .. } => f.write_str("the link has no translation for the change"),
    }
}

// A fault with its number, its path and its reason.
impl fmt::Display for Words<Fault> {
    fn fmt<W: fmt::Write>(&self, f: &mut fmt::Formatter<W>) -> fmt::Result {
        let fault = self.0;
        let code = fault.number();
        write!(f, "refused ({code})")?;
        if let Some(position) = fault.position() {
            write!(f, " at {position}")?;
        }
        if let Some(column) = fault.column() {
            write!(f, ", column {column}")?;
        }
        f.write_str(": ")?;
        write_reason(fault, f)
    }
}
