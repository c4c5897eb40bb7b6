// The text of a line: it begins with a word, takes numbers and bytes one by one, and goes to the front of a buffer.
ghost use Rattle.std.specs.Prelude.{◌≡◌, ◌+◌, ◌<◌, ◌≤◌, [], ◌∷◌, ◌++◌, length};
ghost use Rattle.printing.specs.Printing.{Prints};

use crate::refusal::PrintRefusal;
use arrayvec::ArrayVec;
use itoa::{Buffer, Integer};
use std::marker::Model;

// The fewest bytes of a buffer that a line is printed to, and the most bytes of a line.
const SHORTEST_BUFFER: usize = 64;

// The bytes of a line so far.
#[derive(Drop)]
pub(crate) struct Text {
    bytes: ArrayVec<u8, SHORTEST_BUFFER>,
}

// A contract sees the bytes.
impl Model for Text {
    ghost use Rattle.std.specs.Prelude.{ℕ, List};

    ghost Value = { List ℕ };

    ghost view = { λ text. text.bytes.items };
}

impl Text {
    // No bytes.
    pub(crate) fn new() -> Text
        ensures { result ≡ [] }
    {
        Text {
            bytes: ArrayVec::new(),
        }
    }

    // The text with more bytes.
    pub(crate) fn with(mut self, more: &[u8]) -> Text
        requires { length self + length more.now ≤ 64 }
        ensures { result ≡ self ++ more.now }
    {
        self.bytes.try_extend_from_slice(more).unwrap();
        self
    }

    // The text with a number, and with the byte that follows it: a space, or the line's end.
    pub(crate) fn with_number<I: Integer>(self, number: I, end: u8) -> Text
        requires { length self + I.MAX_STR_LEN < 64 }
        ensures bytes { result ≡ self ++ I.text number ++ end ∷ [] }
        ensures short { length result ≤ length self + I.MAX_STR_LEN + 1 }
    {
        let mut digits = Buffer::new();
        self.with(digits.format(number).as_bytes()).with(&[end])
    }

    // Puts the text at the buffer's front, and counts its bytes. Bytes past them stay, and a refusal writes nothing.
    pub(crate) fn put(self, buffer: &mut [u8]) -> Result<usize, PrintRefusal>
        ensures { Prints self buffer.old buffer.new result }
    {
        if buffer.len() < SHORTEST_BUFFER {
            return Err(PrintRefusal::ShortBuffer);
        }
        let bytes = self.bytes.as_slice();
        buffer[..bytes.len()].copy_from_slice(bytes);
        Ok(bytes.len())
    }
}
