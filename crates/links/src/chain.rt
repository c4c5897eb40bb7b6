// Two links, one after the other.
ghost use Rattle.std.specs.Prelude.{◌≡◌, if◌then◌else◌, Ok, Err};
ghost use Rattle.links.specs.declared.refusal.BuildRefusal.TheVariants.{CannotBuild};
ghost use Rattle.links.specs.Layers.{chain, chained, joined};
ghost use Rattle.links.specs.Chains.{chain_lawful};

use crate::admit::admit;
use crate::link::Link;
use crate::refusal::{BuildRefusal, CarryRefusal};
use kinds::change::Change;
use kinds::kind::Kind;

// The right value of the first link is the left value of the second. A chain whose middle kinds differ, which no call
// builds, is a link between two blank kinds.
#[derive(Clone, Copy)]
pub struct Chain<L, M> {
    pub first: L,
    pub second: M,
}

impl<L: Link, M: Link> Chain<L, M> {
    // The chain of two links, where the right kind of the first is the left kind of the second.
    pub fn new(first: L, second: M) -> Result<Chain<L, M>, BuildRefusal>
        ensures { result ≡ (if joined L.Link.lens M.Link.lens (chain first second) then Ok (chain first second) else Err CannotBuild) }
    {
        let chain = Chain { first, second };
        if chain.is_joined() {
            Ok(chain)
        } else {
            Err(BuildRefusal::CannotBuild)
        }
    }

    // Says whether the two kinds in the middle are one.
    fn is_joined(&self) -> bool
        ensures { result ≡ joined L.Link.lens M.Link.lens self.now }
    {
        self.first.right_kind().same(self.second.left_kind())
    }
}

// Carrying to the right and to the left are mirrored: one function for both would match on the side for the order of the links, for
// the method and for what is put back, and is no plainer.
impl<L: Link, M: Link> Link for Chain<L, M> {
    ghost lens = { chained L.Link.lens M.Link.lens };

    ghost lawful = { chain_lawful L.Link.lens L.Link.lawful M.Link.lens M.Link.lawful };

    fn reset(&mut self) {
        self.first.reset();
        self.second.reset();
    }

    fn left_kind(&self) -> Kind {
        if self.is_joined() {
            self.first.left_kind()
        } else {
            Kind::blank()
        }
    }

    fn right_kind(&self) -> Kind {
        if self.is_joined() {
            self.second.right_kind()
        } else {
            Kind::blank()
        }
    }

    fn carry_right(&mut self, change: Change) -> Result<Change, CarryRefusal> {
        if !self.is_joined() {
            return admit(Kind::blank(), change);
        }
        let mut first = self.first;
        let middle = first.carry_right(change)?;
        let answer = self.second.carry_right(middle)?;
        self.first = first;
        Ok(answer)
    }

    fn carry_left(&mut self, change: Change) -> Result<Change, CarryRefusal> {
        if !self.is_joined() {
            return admit(Kind::blank(), change);
        }
        let mut second = self.second;
        let middle = second.carry_left(change)?;
        let answer = self.first.carry_left(middle)?;
        self.second = second;
        Ok(answer)
    }
}
