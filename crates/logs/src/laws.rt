// The laws of reading a log, as what a function that does nothing ensures.
ghost use Rattle.logs.specs.Feeding.{Reader, Reads81, InPieces, AsLines};

// Ensures, for every reader of lines, that two pieces of a log come to the same as both at once; and, if the reader goes by
// the first 81 characters of a line, that feeding a log byte by byte comes to what its lines do.
pub fn reading_in_pieces<D>()
    ensures pieces { (r : Reader D) → InPieces r }
    ensures lines { (r : Reader D) → Reads81 r → AsLines r }
{}
