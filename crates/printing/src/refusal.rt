// Why a line is not printed.
ghost use Rattle.std.specs.Prelude.{◌≡◌};
ghost use Rattle.printing.specs.Printing.{print_number};

// The reason, with its number.
#[derive(Clone, Copy, PartialEq, Eq, Debug)]
pub enum PrintRefusal {
    // What is printed has no line at the position.
    NoSuchLine = 5,
    // The buffer is shorter than 64 bytes.
    ShortBuffer = 12,
}

impl PrintRefusal {
    // The number under which the refusal is reported.
    pub fn number(self) -> u8
        ensures { result ≡ print_number self }
    {
        self as u8
    }
}
