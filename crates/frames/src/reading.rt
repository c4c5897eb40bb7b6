// Bytes, read as a frame.
ghost use Rattle.std.specs.Prelude.{◌≡◌, ◌+◌, ◌^◌, ◌<◌, ◌≤◌, length};
ghost use Rattle.frames.specs.Frames.{two_bytes, four_bytes, side, sized, is_printable, printable, remark_in, change_in, alteration_in, edit_in, frame, told, said};
ghost use Rattle.frames.specs.Laws.{Sound, Sayable};
ghost use Rattle.kinds.specs.Answers.{test};
ghost use Rattle.frames.specs.declared.refusal.FrameRefusal.TheVariants.{UnprintableText};

use crate::frame::{Frame, Operation};
use crate::refusal::FrameRefusal;
use kinds::change::Change;
use kinds::side::Side;

// The most bytes of a remark's text.
const LONGEST_TEXT: usize = 24;

// Not a `TryFrom`: a side is no type of this crate, and its letters are the frame's.
fn read_side(letter: u8) -> Result<Side, FrameRefusal>
    ensures { result ≡ side letter }
{
    match char::from(letter) {
        'L' => Ok(Side::Left),
        'R' => Ok(Side::Right),
        _ => Err(FrameRefusal::UnknownSide),
    }
}

// Refuses a frame of any other length.
fn check_length(bytes: &[u8], length: usize) -> Result<(), FrameRefusal>
    ensures { result ≡ sized length bytes.now }
{
    if bytes.len() == length {
        Ok(())
    } else {
        Err(FrameRefusal::WrongLength)
    }
}

// The position in the two bytes from `start` on.
fn read_position(bytes: &[u8], start: usize) -> usize
    requires { start + 1 < length bytes.now }
    ensures same { result ≡ two_bytes bytes.now start }
    ensures small { result < 65536 }
{
    usize::from(u16::from_be_bytes([bytes[start], bytes[start + 1]]))
}

// Says whether a text may have the byte.
fn is_printable(byte: u8) -> bool
    ensures { result ≡ is_printable byte }
{
    matches!(byte, 0x20..=0x7E)
}

fn check_text(text: &[u8]) -> Result<(), FrameRefusal>
    ensures { result ≡ test (printable text.now) UnprintableText }
{
    if text.iter().all(|byte| is_printable(*byte)) {
        Ok(())
    } else {
        Err(FrameRefusal::UnprintableText)
    }
}

fn read_remark(bytes: &[u8]) -> Result<Operation<'_>, FrameRefusal>
    ensures { told result ≡ remark_in bytes.now }
{
    if bytes.len() < 4 || bytes.len() > 4 + LONGEST_TEXT {
        return Err(FrameRefusal::WrongLength);
    }
    let text = &bytes[4..];
    check_text(text)?;
    Ok(Operation::Remark {
        at: read_position(bytes, 2),
        text,
    })
}

// The change whose letter stands at byte 5 and whose operand stands from byte 6 on.
fn read_change(bytes: &[u8]) -> Result<Change, FrameRefusal>
    requires { length bytes.now ≡ 10 }
    ensures { result ≡ change_in bytes.now }
{
    let operand = [bytes[6], bytes[7], bytes[8], bytes[9]];
    match char::from(bytes[5]) {
        'K' if u32::from_be_bytes(operand) == 0 => Ok(Change::Keep),
        'K' => Err(FrameRefusal::KeepWithOperand),
        'A' => Ok(Change::Add(i32::from_be_bytes(operand))),
        'S' => Ok(Change::Set(u32::from_be_bytes(operand))),
        'F' => Ok(Change::Mask {
            mask: u16::from_be_bytes([operand[0], operand[1]]),
            bits: u16::from_be_bytes([operand[2], operand[3]]),
        }),
        _ => Err(FrameRefusal::UnknownChange),
    }
}

fn read_alteration(bytes: &[u8]) -> Result<Operation<'_>, FrameRefusal>
    ensures { told result ≡ alteration_in bytes.now }
{
    check_length(bytes, 10)?;
    let change = read_change(bytes)?;
    Ok(Operation::Change {
        at: read_position(bytes, 2),
        column: bytes[4],
        change: change.plain(),
    })
}

fn read_operation(side: Side, bytes: &[u8]) -> Result<Operation<'_>, FrameRefusal>
    requires { 2 ≤ length bytes.now }
    ensures { told result ≡ edit_in side bytes.now }
{
    match char::from(bytes[1]) {
        'K' => {
            check_length(bytes, 2)?;
            Ok(Operation::Keep)
        }
        'I' => {
            check_length(bytes, 4)?;
            Ok(Operation::Insert {
                at: read_position(bytes, 2),
            })
        }
        'N' => match side {
            Side::Left => read_remark(bytes),
            Side::Right => Err(FrameRefusal::RemarkFromTable),
        },
        'D' => {
            check_length(bytes, 4)?;
            Ok(Operation::Delete {
                at: read_position(bytes, 2),
            })
        }
        'M' => {
            check_length(bytes, 6)?;
            Ok(Operation::Move {
                from: read_position(bytes, 2),
                to: read_position(bytes, 4),
            })
        }
        'C' => read_alteration(bytes),
        _ => Err(FrameRefusal::UnknownOperation),
    }
}

impl Frame<'_> {
    // Reads bytes as a frame. A remark's text is handed out as a part of the bytes.
    pub fn read(bytes: &[u8]) -> Result<Frame<'_>, FrameRefusal>
        ensures says { said result ≡ frame bytes.now }
        ensures sound { Sound bytes.now result }
        ensures sayable { Sayable }
    {
        if bytes.len() < 2 {
            return Err(FrameRefusal::WrongLength);
        }
        let side = read_side(bytes[0])?;
        let operation = read_operation(side, bytes)?;
        Ok(Frame { side, operation })
    }
}
