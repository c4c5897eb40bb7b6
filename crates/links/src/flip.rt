// A link turned round.
ghost use Rattle.std.specs.Prelude.{◌≡◌};
ghost use Rattle.links.specs.Layers.{flip, flipped};
ghost use Rattle.links.specs.Flips.{flip_lawful};

use crate::link::Link;
use crate::refusal::CarryRefusal;
use kinds::change::Change;
use kinds::kind::Kind;

// The inner link, with left and right exchanged.
#[derive(Clone, Copy)]
pub struct Flip<L> {
    pub inner: L,
}

impl<L: Link> Flip<L> {
    // The link turned round.
    pub fn new(inner: L) -> Flip<L>
        ensures { result ≡ flip inner }
    {
        Flip { inner }
    }
}

impl<L: Link> Link for Flip<L> {
    ghost lens = { flipped L.Link.lens };

    ghost lawful = { flip_lawful L.Link.lens L.Link.lawful };

    fn reset(&mut self) {
        self.inner.reset();
    }

    fn left_kind(&self) -> Kind {
        self.inner.right_kind()
    }

    fn right_kind(&self) -> Kind {
        self.inner.left_kind()
    }

    fn carry_right(&mut self, change: Change) -> Result<Change, CarryRefusal> {
        self.inner.carry_left(change)
    }

    fn carry_left(&mut self, change: Change) -> Result<Change, CarryRefusal> {
        self.inner.carry_right(change)
    }
}
