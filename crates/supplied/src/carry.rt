// An amount that is carried in full lots.
ghost use Rattle.std.specs.Prelude.{◌+◌, ◌*◌, ◌<◌, ◌≤◌};

// The right value counts the full lots of `ratio` in the left value, up to `limit`. The memory `rest` is what is left over.
#[derive(Clone, Copy)]
pub struct Carry {
    pub(crate) ratio: u32,
    pub(crate) limit: u32,
    pub(crate) rest: u32,
    ghost positive: { 0 < ratio },
    ghost small: { ratio * (limit + 1) ≤ 2000000001 },
    ghost below: { rest < ratio },
}
