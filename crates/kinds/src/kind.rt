// A kind of values: a letter and a limit.
ghost use Rattle.std.specs.Prelude.{◌≡◌, true};
ghost use Rattle.kinds.specs.Letters.{proper};

// What the values of a kind are.
#[derive(Clone, Copy, PartialEq, Eq, Debug)]
pub enum Letter {
    // An amount, changed by additions.
    Amount,
    // One of several choices, changed by setting it.
    Choice,
    // A set of flags, a bit each, changed under a mask.
    Flags,
    // Always 0.
    Blank,
}

// The values 0 to `limit`, which is a limit that the letter allows.
#[derive(Clone, Copy, PartialEq, Eq, Debug)]
pub struct Kind {
    pub letter: Letter,
    pub limit: u32,
    ghost proper: { proper letter limit ≡ true },
}
