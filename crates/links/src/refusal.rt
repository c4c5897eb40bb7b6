// Why a link refuses.
ghost use Rattle.std.specs.Prelude.{◌≡◌};
ghost use Rattle.links.specs.Refusals.{carry_number, build_number};

// Why a change is not carried, each reason with its number.
#[derive(Clone, Copy, PartialEq, Eq, Debug)]
pub enum CarryRefusal {
    // The change is not of the kind.
    NotOfKind = 8,
    // No change of the other kind translates it.
    NoTranslation = 10,
}

// Why a link is not built, with its number.
#[derive(Clone, Copy, PartialEq, Eq, Debug)]
pub enum BuildRefusal {
    // No such link has these numbers, or these parts.
    CannotBuild = 11,
}

impl CarryRefusal {
    // The number under which the refusal is reported.
    pub fn number(self) -> u8
        ensures { result ≡ carry_number self }
    {
        self as u8
    }
}

impl BuildRefusal {
    // The number under which the refusal is reported.
    pub fn number(self) -> u8
        ensures { result ≡ build_number self }
    {
        self as u8
    }
}
