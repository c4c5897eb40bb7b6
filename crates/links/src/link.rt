// A link between two kinds of values.
ghost use Rattle.std.specs.Prelude.{◌≡◌};
ghost use Rattle.links.specs.Laws.{Lens, Lawful, answer, link_after};

use crate::refusal::CarryRefusal;
use kinds::change::Change;
use kinds::kind::Kind;

// Keeps a left value and a right value in agreement: a change of one is carried to a change of the other. A method for each
// direction, and none with a side, since most links do another thing in each.
pub trait Link: Copy {
    // The kinds, the agreement and the carrying, as functions of the link.
    ghost lens: { Lens Self };

    // Goes back to the memory that the link was built with.
    fn reset(&mut self)
        ensures { self.new ≡ lens.fresh self.old };

    // The kind of the left value.
    fn left_kind(&self) -> Kind
        ensures { result ≡ lens.left self.now };

    // The kind of the right value.
    fn right_kind(&self) -> Kind
        ensures { result ≡ lens.right self.now };

    // The change of the right value that answers a change of the left one.
    fn carry_right(&mut self, change: Change) -> Result<Change, CarryRefusal>
        ensures answers { result ≡ answer (lens.rightward self.old change) }
        ensures leaves { self.new ≡ link_after self.old (lens.rightward self.old change) };

    // The change of the left value that answers a change of the right one.
    fn carry_left(&mut self, change: Change) -> Result<Change, CarryRefusal>
        ensures answers { result ≡ answer (lens.leftward self.old change) }
        ensures leaves { self.new ≡ link_after self.old (lens.leftward self.old change) };

    // What each impl proves: the law of a link, to the right and to the left.
    ghost lawful: { Lawful lens };
}
