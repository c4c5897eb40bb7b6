// A change of a value.
ghost use Rattle.std.specs.Prelude.{◌≡◌};
ghost use Rattle.kinds.specs.Changes.{plain};

#[derive(Clone, Copy, PartialEq, Eq, Debug)]
pub enum Change {
    // The value stays.
    Keep,
    // The amount is added to the value.
    Add(i32),
    // The number takes the value's place.
    Set(u32),
    // The bits in the mask become those of `bits`, and the others stay.
    Mask { mask: u16, bits: u16 },
}

impl Change {
    // The change itself, or keep where it adds 0 or has an empty mask and no bits.
    pub fn plain(self) -> Change
        ensures { result ≡ plain self }
    {
        match self {
            Change::Add(0) => Change::Keep,
            Change::Mask { mask: 0, bits: 0 } => Change::Keep,
            other => other,
        }
    }
}
