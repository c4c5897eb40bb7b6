// The worked cases, as what a function that does nothing ensures.
ghost use Rattle.documents.specs.Worked.{four_lines};
ghost use Rattle.trials.specs.Worked.{WorkedCases};

// Ensures what comes of worked changes of kinds, of worked links, and of worked edits of a sheet of four lines.
pub fn worked_cases()
    ensures { WorkedCases 10 four_lines }
{}
