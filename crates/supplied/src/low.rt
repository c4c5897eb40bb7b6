// The low bits of flags.
ghost use Rattle.std.specs.Prelude.{◌≤◌};

// The right value has the lowest `kept` bits of the left one, which has `width` bits.
#[derive(Clone, Copy)]
pub struct Low {
    pub(crate) kept: u32,
    pub(crate) width: u32,
    ghost some: { 1 ≤ kept },
    ghost narrow: { kept ≤ width },
    ghost small: { width ≤ 16 },
}
