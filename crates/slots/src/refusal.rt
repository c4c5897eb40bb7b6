// Why a list refuses a call.
ghost use Rattle.std.specs.Prelude.{◌≡◌};
ghost use Rattle.slots.specs.Refusals.{numbered};

/// Each refusal with the number by which it is known.
#[derive(Clone, Copy, PartialEq, Eq, Debug)]
pub enum Refusal {
    /// The position is not in the list.
    NotInList = 5,
    /// Every slot of the table holds an item.
    Full = 6,
}

impl Refusal {
    /// The number by which the refusal is known.
    pub fn number(self) -> u8
        ensures { result ≡ numbered self }
    {
        self as u8
    }
}
