// The laws of the layers, as the promises of functions that do nothing.
ghost use Rattle.std.specs.Prelude.{ℕ};
ghost use Rattle.links.specs.Laws.{Lawful, AgreeBy, AgreeWhere};
ghost use Rattle.links.specs.Layers.{flipped, joined, chained};
ghost use Rattle.links.specs.Columns.{LawfulRow, four};

use crate::link::Link;

// Any link turned round is lawful.
pub fn flip_is_lawful<L: Link>()
    ensures lawful { Lawful (flipped L.Link.lens) }
    ensures agrees { AgreeBy (flipped L.Link.lens) (λ s x y. L.Link.lens.agrees s.inner y x) }
{}

// Any two links, one after the other, are a lawful link; where they are joined, some middle value agrees with both.
pub fn chain_is_lawful<L: Link, M: Link>()
    ensures lawful { Lawful (chained L.Link.lens M.Link.lens) }
    ensures agrees { AgreeWhere (joined L.Link.lens M.Link.lens) (chained L.Link.lens M.Link.lens) (λ c x y. (z : ℕ) × L.Link.lens.agrees c.first x z × M.Link.lens.agrees c.second z y) }
{}

// Any four links, side by side, are a lawful row.
pub fn row_is_lawful<P0: Link, P1: Link, P2: Link, P3: Link>()
    ensures { LawfulRow 4 (four P0.Link.lens P1.Link.lens P2.Link.lens P3.Link.lens) }
{}
