// A left value that the right side does not see.
ghost use Rattle.std.specs.Prelude.{◌≡◌};
ghost use Rattle.supplied.specs.Memoryless.{private};
ghost use Rattle.supplied.specs.MemorylessLemmas.{private_lawful};

use kinds::change::Change;
use kinds::kind::Kind;
use links::admit::admit;
use links::link::Link;
use links::refusal::CarryRefusal;

// The right value is 0, whatever the left value is.
#[derive(Clone, Copy)]
pub struct Private {
    pub(crate) kind: Kind,
}

impl Private {
    // The link that hides values of the kind.
    pub fn new(kind: Kind) -> Private
        ensures { result.kind ≡ kind }
    {
        Private { kind }
    }
}

impl Link for Private {
    ghost lens = { private };

    ghost lawful = { private_lawful };

    fn reset(&mut self) {}

    fn left_kind(&self) -> Kind {
        self.kind
    }

    fn right_kind(&self) -> Kind {
        Kind::blank()
    }

    fn carry_right(&mut self, change: Change) -> Result<Change, CarryRefusal> {
        let _ = admit(self.left_kind(), change)?;
        Ok(Change::Keep)
    }

    fn carry_left(&mut self, change: Change) -> Result<Change, CarryRefusal> {
        admit(self.right_kind(), change)
    }
}
