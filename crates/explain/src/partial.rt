// A line of which the first characters were kept is read like the whole line.
ghost use Rattle.frames.specs.Lines.{Few};
ghost use Rattle.explain.specs.Partial.{ReadAs};

use frames::line::read_line;
use frames::refusal::LineRefusal;
use logs::partial::PartialLine;

// Reads the line as if all of it had been kept, and counts its bytes, none for a line that is skipped.
#[tactic(auto, using(frames::proofs::Cut::cut))]
pub fn read_partial(line: &PartialLine, buffer: &mut [u8]) -> Result<Option<usize>, LineRefusal>
    ensures whole { ReadAs line.now.kept buffer.old buffer.new result }
    ensures few { Few result }
{
    read_line(line.as_slice(), buffer)
}
