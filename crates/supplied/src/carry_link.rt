// Full lots are a link.
ghost use Rattle.std.specs.Prelude.{◌≡◌, ◌<◌, ◌≤◌, if◌then◌else◌, Ok, Err, MatchResult, nat_le, unsigned_abs};
ghost use Rattle.kinds.specs.declared.change.Change.TheVariants.{Add};
ghost use Rattle.kinds.specs.Changes.{plain};
ghost use Rattle.links.specs.declared.refusal.CarryRefusal.TheVariants.{NoTranslation};
ghost use Rattle.links.specs.declared.refusal.BuildRefusal.TheVariants.{CannotBuild};
ghost use Rattle.supplied.specs.Carries.{Carries, floor, remainder, added, carrying};
ghost use Rattle.supplied.specs.CarriesLemmas.{carry_lawful};

use crate::carry::Carry;
use kinds::change::Change;
use kinds::kind::{Kind, Letter};
use links::admit::admit;
use links::link::Link;
use links::refusal::{BuildRefusal, CarryRefusal};

impl Carry {
    // The link to the full lots of `ratio`, of which there are at most `limit`.
    pub fn new(ratio: u32, limit: u32) -> Result<Carry, BuildRefusal>
        ensures { MatchResult result (λ c. Carries ratio limit × (c.ratio ≡ ratio) × (c.limit ≡ limit) × (c.rest ≡ 0)) (λ e. (e ≡ CannotBuild) × (Carries ratio limit → ⊥)) }
    {
        if ratio == 0
            || ratio > 1_000_000
            || u64::from(ratio) * (u64::from(limit) + 1) > 2_000_000_001
        {
            return Err(BuildRefusal::CannotBuild);
        }
        Ok(Carry {
            ratio,
            limit,
            rest: 0,
        })
    }
}

// The full lots in a sum, rounded down, and what is left over.
fn split(sum: i64, ratio: u32) -> (i64, u32)
    requires { 0 < ratio }
    ensures lots { result.0 ≡ floor sum ratio }
    ensures rest { result.1 ≡ remainder sum ratio }
{
    let lot = i64::from(ratio);
    (sum.div_euclid(lot), sum.rem_euclid(lot) as u32)
}

// What a change of an amount adds: keep adds 0.
fn added(change: Change) -> i32
    ensures { result ≡ added change }
{
    match change {
        Change::Add(amount) => amount,
        _ => 0,
    }
}

// The change that adds an amount, where it lies in -limit to limit.
fn addition(amount: i64, limit: u32) -> Result<Change, CarryRefusal>
    requires { limit ≤ 2000000000 }
    ensures { result ≡ (if nat_le (unsigned_abs amount) limit then Ok (plain (Add amount)) else Err NoTranslation) }
{
    if amount.unsigned_abs() <= u64::from(limit) {
        Ok(Change::Add(amount as i32).plain())
    } else {
        Err(CarryRefusal::NoTranslation)
    }
}

impl Link for Carry {
    ghost lens = { carrying };

    ghost lawful = { carry_lawful };

    fn reset(&mut self) {
        self.rest = 0;
    }

    fn left_kind(&self) -> Kind {
        Kind {
            letter: Letter::Amount,
            limit: self.ratio * (self.limit + 1) - 1,
        }
    }

    fn right_kind(&self) -> Kind {
        Kind {
            letter: Letter::Amount,
            limit: self.limit,
        }
    }

    fn carry_right(&mut self, change: Change) -> Result<Change, CarryRefusal> {
        let amount = added(admit(self.left_kind(), change)?);
        let (lots, rest) = split(i64::from(self.rest) + i64::from(amount), self.ratio);
        let answer = addition(lots, self.limit)?;
        self.rest = rest;
        Ok(answer)
    }

    fn carry_left(&mut self, change: Change) -> Result<Change, CarryRefusal> {
        let lots = added(admit(self.right_kind(), change)?);
        Ok(Change::Add(self.ratio as i32 * lots).plain())
    }
}
