// Why a pair refuses a frame, and where.
ghost use Rattle.std.specs.Prelude.{◌≡◌};
ghost use Rattle.documents.specs.declared.fault.Fault.TheVariants.{NotAFrame};
ghost use Rattle.documents.specs.Faults.{fault_number, fault_position, fault_column};

use frames::refusal::FrameRefusal;

// Positions are the frame's own; of a move, the first bad one.
#[derive(Clone, Copy, PartialEq, Eq, Debug)]
pub enum Fault {
    // The bytes are not a frame.
    NotAFrame(FrameRefusal),
    // The position is not in the document.
    NotInDocument { position: usize },
    // The sheet has as many lines as the pair's size.
    SheetFull { position: usize },
    // The line is a remark, which has no columns.
    NotARecord { position: usize },
    // There is no such column, or the change is not of its kind.
    NotOfKind { position: usize, column: u8 },
    // The change does not apply to the value.
    DoesNotApply { position: usize, column: u8 },
    // The link has no translation for the change.
    NoTranslation { position: usize, column: u8 },
}

// Bytes that are not a frame are refused by what their reading says.
impl From<FrameRefusal> for Fault {
    ghost from_gives = { λ refusal fault. fault ≡ NotAFrame refusal };

    fn from(refusal: FrameRefusal) -> Fault {
        Fault::NotAFrame(refusal)
    }
}

impl Fault {
    // The number under which the fault is reported. A match, since discriminants are for variants without fields.
    pub fn number(self) -> u8
        ensures { result ≡ fault_number self }
    {
        match self {
            Fault::NotAFrame(_) => 4,
            Fault::NotInDocument { .. } => 5,
            Fault::SheetFull { .. } => 6,
            Fault::NotARecord { .. } => 7,
            Fault::NotOfKind { .. } => 8,
            Fault::DoesNotApply { .. } => 9,
            Fault::NoTranslation { .. } => 10,
        }
    }

    // The position in the frame that is at fault.
    pub fn position(self) -> Option<usize>
        ensures { result ≡ fault_position self }
    {
        match self {
            Fault::NotAFrame(_) => None,
            Fault::NotInDocument { position }
            | Fault::SheetFull { position }
            | Fault::NotARecord { position }
            | Fault::NotOfKind { position, .. }
            | Fault::DoesNotApply { position, .. }
            | Fault::NoTranslation { position, .. } => Some(position),
        }
    }

    // The column that is at fault.
    pub fn column(self) -> Option<u8>
        ensures { result ≡ fault_column self }
    {
        match self {
            Fault::NotAFrame(_)
            | Fault::NotInDocument { .. }
            | Fault::SheetFull { .. }
            | Fault::NotARecord { .. } => None,
            Fault::NotOfKind { column, .. }
            | Fault::DoesNotApply { column, .. }
            | Fault::NoTranslation { column, .. } => Some(column),
        }
    }
}
