// Why a kind refuses.
ghost use Rattle.std.specs.Prelude.{◌≡◌};
ghost use Rattle.kinds.specs.Refusals.{number};

// Each refusal with the number under which it is reported.
#[derive(Clone, Copy, PartialEq, Eq, Debug)]
pub enum Refusal {
    // The change is not of the kind.
    NotOfKind = 8,
    // The change does not apply to the value, or the value is above the limit.
    DoesNotApply = 9,
    // No kind has this letter and this limit.
    NoSuchKind = 11,
}

impl Refusal {
    // The number of the refusal.
    pub fn number(self) -> u8
        ensures { result ≡ number self }
    {
        self as u8
    }
}
