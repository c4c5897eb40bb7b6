// A log line, read as bytes.
ghost use Rattle.std.specs.Prelude.{◌≡◌, ℕ, ◌*◌, ◌<◌, ◌≤◌, List, ◌++◌, length, drop, is_some, Some};
ghost use Rattle.std.specs.Option.{unwrap_or};
ghost use Rattle.frames.specs.Lines.{digit, bytes_of, is_skipped, line_bytes, answer, written, Spelled, Few, Refusals};

use crate::refusal::LineRefusal;

// The most characters of a line.
const LONGEST_LINE: usize = 80;

// The fewest bytes of a buffer that a line's bytes are written to.
const SHORTEST_BUFFER: usize = 64;

// The value of a hexadecimal digit.
fn digit(character: u8) -> Option<u8>
    ensures { result ≡ digit character }
{
    match character {
        b'0'..=b'9' => Some(character - b'0'),
        b'A'..=b'F' => Some(character - b'A' + 10),
        _ => None,
    }
}

// Says whether the line is empty or a comment.
fn is_skipped(line: &[u8]) -> bool
    ensures { result ≡ is_skipped line.now }
{
    matches!(line, [] | [b';', ..])
}

// Says whether the characters are digits, as many as two for each byte.
fn spells_bytes(line: &[u8]) -> bool
    ensures { result ≡ is_some (bytes_of line.now) }
{
    line.len() % 2 == 0 && line.iter().all(|character| digit(*character).is_some())
}

// The value of a digit, and 0 for any other character.
fn value(character: u8) -> u8
    ensures same { result ≡ unwrap_or (digit character) 0 }
    ensures small { result < 16 }
{
    digit(character).unwrap_or(0)
}

// Writes the bytes that the line spells to the buffer's front, and counts them.
fn write_bytes(line: &[u8], buffer: &mut [u8]) -> usize
    requires { length line.now ≤ 2 * length buffer.old }
    ensures { (bytes : List ℕ) → bytes_of line.now ≡ Some bytes → (result ≡ length bytes) × (buffer.new ≡ bytes ++ drop (length bytes) buffer.old) }
{
    let (pairs, _) = line.as_chunks::<2>();
    for (at, [high, low]) in pairs.iter().enumerate() {
        buffer[at] = value(*high) * 16 + value(*low);
    }
    pairs.len()
}

// Reads a line, into a buffer that is the caller's, since nothing here allocates. Its bytes go to the buffer's front, and their count is answered, none for a line that is skipped. Bytes past
// them stay, and a refusal writes nothing.
pub fn read_line(line: &[u8], buffer: &mut [u8]) -> Result<Option<usize>, LineRefusal>
    ensures answers { result ≡ answer (line_bytes line.now (length buffer.old)) }
    ensures writes { buffer.new ≡ written (line_bytes line.now (length buffer.old)) buffer.old }
    ensures refusals { Refusals line.now (length buffer.old) result }
    ensures few { Few result }
    ensures spelled { Spelled line.now buffer.new result }
{
    if line.len() > LONGEST_LINE {
        return Err(LineRefusal::TooLong);
    }
    if is_skipped(line) {
        return Ok(None);
    }
    if !spells_bytes(line) {
        return Err(LineRefusal::NotHexadecimal);
    }
    if buffer.len() < SHORTEST_BUFFER {
        return Err(LineRefusal::ShortBuffer);
    }
    Ok(Some(write_bytes(line, buffer)))
}
