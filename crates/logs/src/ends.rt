// Where a line of a log ends.
ghost use Rattle.logs.specs.Logs.{LineEnd};

// The position of the first newline.
pub fn line_end(bytes: &[u8]) -> Option<usize>
    ensures { LineEnd bytes.now result }
{
    bytes.iter().position(|byte| *byte == b'\n')
}
