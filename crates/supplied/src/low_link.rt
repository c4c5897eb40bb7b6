// The low bits of flags are a link.
ghost use Rattle.std.specs.Prelude.{◌≡◌, ◌-◌, ◌%◌, ◌^◌, ◌≤◌, MatchResult};
ghost use Rattle.kinds.specs.declared.kind.Letter.TheVariants.{Flags};
ghost use Rattle.links.specs.declared.refusal.BuildRefusal.TheVariants.{CannotBuild};
ghost use Rattle.supplied.specs.LowBits.{Narrows, low};
ghost use Rattle.supplied.specs.LowBitsLemmas.{low_lawful};

use crate::low::Low;
use kinds::change::Change;
use kinds::kind::{Kind, Letter};
use links::admit::admit;
use links::link::Link;
use links::refusal::{BuildRefusal, CarryRefusal};

impl Low {
    // The link that keeps the lowest `kept` bits of `width`, where 1 ≤ kept ≤ width ≤ 16.
    pub fn new(kept: u32, width: u32) -> Result<Low, BuildRefusal>
        ensures { MatchResult result (λ l. Narrows kept width × (l.kept ≡ kept) × (l.width ≡ width)) (λ e. (e ≡ CannotBuild) × (Narrows kept width → ⊥)) }
    {
        if 1 <= kept && kept <= width && width <= 16 {
            Ok(Low { kept, width })
        } else {
            Err(BuildRefusal::CannotBuild)
        }
    }
}

// The kind of as many flags as `width` says.
fn flags(width: u32) -> Kind
    requires some { 1 ≤ width }
    requires few { width ≤ 16 }
    ensures letter { result.letter ≡ Flags }
    ensures limit { result.limit ≡ 2 ^ width - 1 }
{
    Kind {
        letter: Letter::Flags,
        limit: (1 << width) - 1,
    }
}

// The number that the lowest `kept` bits of `bits` make.
fn lowest(kept: u32, bits: u16) -> u16
    requires { kept ≤ 16 }
    ensures { result ≡ bits % 2 ^ kept }
{
    (u32::from(bits) % (1 << kept)) as u16
}

impl Link for Low {
    ghost lens = { low };

    ghost lawful = { low_lawful };

    fn reset(&mut self) {}

    fn left_kind(&self) -> Kind {
        flags(self.width)
    }

    fn right_kind(&self) -> Kind {
        flags(self.kept)
    }

    fn carry_right(&mut self, change: Change) -> Result<Change, CarryRefusal> {
        match admit(self.left_kind(), change)? {
            Change::Mask { mask, bits } => {
                let low = Change::Mask {
                    mask: lowest(self.kept, mask),
                    bits: lowest(self.kept, bits),
                };
                Ok(low.plain())
            }
            other => Ok(other),
        }
    }

    fn carry_left(&mut self, change: Change) -> Result<Change, CarryRefusal> {
        admit(self.right_kind(), change)
    }
}
