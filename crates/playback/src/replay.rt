// A replay: a pair, the line that has begun, and the counts.
ghost use Rattle.std.specs.Prelude.{◌+◌, ◌≤◌, length};

use logs::partial::PartialLine;
use pair::pair::Pair;

pub mod feeding;
mod playing;
pub mod reporting;

// Counts the lines so far, and of the frames among them those that were accepted and those that were refused.
#[derive(Drop)]
pub struct Replay<'p, 'a, R> {
    pair: &'p mut Pair<'a, R>,
    start: PartialLine,
    lines: u64,
    accepted: u64,
    refused: u64,
    ghost few: { lines ≤ 1000001 },
    ghost counted: { accepted + refused ≤ lines },
    ghost short: { length start.kept ≤ 81 },
}
