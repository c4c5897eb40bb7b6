// A link between equal values of one kind.
ghost use Rattle.std.specs.Prelude.{◌≡◌};
ghost use Rattle.supplied.specs.Memoryless.{same};
ghost use Rattle.supplied.specs.MemorylessLemmas.{same_lawful};

use kinds::change::Change;
use kinds::kind::Kind;
use links::admit::admit;
use links::link::Link;
use links::refusal::CarryRefusal;

// The right value is the left value.
#[derive(Clone, Copy)]
pub struct Same {
    kind: Kind,
}

impl Same {
    // The link between equal values of the kind.
    pub fn new(kind: Kind) -> Same
        ensures { result.kind ≡ kind }
    {
        Same { kind }
    }
}

impl Link for Same {
    ghost lens = { same };

    ghost lawful = { same_lawful };

    fn reset(&mut self) {}

    fn left_kind(&self) -> Kind {
        self.kind
    }

    fn right_kind(&self) -> Kind {
        self.left_kind()
    }

    fn carry_right(&mut self, change: Change) -> Result<Change, CarryRefusal> {
        admit(self.left_kind(), change)
    }

    fn carry_left(&mut self, change: Change) -> Result<Change, CarryRefusal> {
        admit(self.right_kind(), change)
    }
}
