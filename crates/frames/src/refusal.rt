// Why a log line or a frame is refused.
ghost use Rattle.std.specs.Prelude.{◌≡◌};
ghost use Rattle.frames.specs.Refusals.{line_number, frame_number};

// Why a log line does not give bytes, each reason with its number.
#[derive(Clone, Copy, PartialEq, Eq, Debug)]
pub enum LineRefusal {
    // It has more than 80 characters.
    TooLong = 2,
    // A character is not a hexadecimal digit, or the count of digits is odd.
    NotHexadecimal = 3,
    // The buffer for its bytes is shorter than 64 bytes.
    ShortBuffer = 12,
}

impl LineRefusal {
    pub fn number(self) -> u8
        ensures { result ≡ line_number self }
    {
        self as u8
    }
}

// Why bytes are not a frame. All these reasons have one number.
#[derive(Clone, Copy, PartialEq, Eq, Debug)]
pub enum FrameRefusal {
    // Too few or too many bytes for the operation.
    WrongLength,
    // The side letter is neither L nor R.
    UnknownSide,
    // The operation letter is none of K, I, N, D, M and C.
    UnknownOperation,
    // The table has no remarks.
    RemarkFromTable,
    // A byte of the text does not lie between 20 and 7E.
    UnprintableText,
    // The change letter is none of K, A, S and F.
    UnknownChange,
    // A keep has an operand that is not 0.
    KeepWithOperand,
}

impl FrameRefusal {
    // One number for all; a match, so that a new reason has to choose its own.
    pub fn number(self) -> u8
        ensures { result ≡ frame_number self }
    {
        match self {
            FrameRefusal::WrongLength
            | FrameRefusal::UnknownSide
            | FrameRefusal::UnknownOperation
            | FrameRefusal::RemarkFromTable
            | FrameRefusal::UnprintableText
            | FrameRefusal::UnknownChange
            | FrameRefusal::KeepWithOperand => 4,
        }
    }
}
