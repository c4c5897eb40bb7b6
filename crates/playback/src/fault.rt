// Why a line of a log is refused, and where.
ghost use Rattle.std.specs.Prelude.{◌≡◌};
ghost use Rattle.playback.specs.declared.fault.Cause.TheVariants.{Line, Frame};
ghost use Rattle.playback.specs.Causes.{cause_number, cause_position, cause_column};

use documents::fault::Fault;
use frames::refusal::LineRefusal;

#[derive(Clone, Copy, PartialEq, Eq, Debug)]
pub enum Cause {
    // The line's number is above 1,000,000.
    TooManyLines,
    // The line does not give bytes.
    Line(LineRefusal),
    // The pair refuses the frame.
    Frame(Fault),
}

// A refusal with its whole path: the line, and in it the position and the column.
#[derive(Clone, Copy, PartialEq, Eq, Debug)]
pub struct LineFault {
    pub line: u64,
    pub cause: Cause,
}

// Both by hand: a derived `From` promises nothing, and `?` is to say which cause it makes.
impl From<LineRefusal> for Cause {
    ghost from_gives = { λ refusal cause. cause ≡ Line refusal };

    fn from(refusal: LineRefusal) -> Cause {
        Cause::Line(refusal)
    }
}

impl From<Fault> for Cause {
    ghost from_gives = { λ fault cause. cause ≡ Frame fault };

    fn from(fault: Fault) -> Cause {
        Cause::Frame(fault)
    }
}

impl LineFault {
    // The number under which the refusal is reported. A match, since discriminants are for variants without fields.
    pub fn number(self) -> u8
        ensures { result ≡ cause_number self.cause }
    {
        match self.cause {
            Cause::TooManyLines => 1,
            Cause::Line(refusal) => refusal.number(),
            Cause::Frame(fault) => fault.number(),
        }
    }

    // The position in the frame that is at fault.
    pub fn position(self) -> Option<usize>
        ensures { result ≡ cause_position self.cause }
    {
        match self.cause {
            Cause::TooManyLines | Cause::Line(_) => None,
            Cause::Frame(fault) => fault.position(),
        }
    }

    // The column that is at fault.
    pub fn column(self) -> Option<u8>
        ensures { result ≡ cause_column self.cause }
    {
        match self.cause {
            Cause::TooManyLines | Cause::Line(_) => None,
            Cause::Frame(fault) => fault.column(),
        }
    }
}
