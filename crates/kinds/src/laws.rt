// The laws of kinds, as the promises of a function that does nothing.
ghost use Rattle.std.specs.Prelude.{pos};
ghost use Rattle.kinds.specs.Laws.{AbsentTooFar, FlagsOnes, FoldsAct, FoldsAssociate, FoldsPlain, KeepFoldsAway, Keeps, SameOne, StaysWithin};
ghost use Rattle.kinds.specs.declared.change.Change.TheVariants.{Add, Keep, Mask};

// Promises the laws of every kind.
pub fn laws_of_kinds()
    ensures ones { FlagsOnes }
    ensures same { SameOne }
    ensures act { FoldsAct }
    ensures within { StaysWithin }
    ensures associate { FoldsAssociate }
    ensures absent { AbsentTooFar }
    ensures plain { FoldsPlain }
    ensures away { KeepFoldsAway }
    ensures keep { Keeps Keep }
    ensures zero { Keeps (Add (pos 0)) }
    ensures empty { Keeps (Mask 0 0) }
{}
