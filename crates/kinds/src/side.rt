// The two sides that are kept in agreement.

// The left one is the sheet, and the right one the table.
#[derive(Clone, Copy, PartialEq, Eq, Debug)]
pub enum Side {
    Left,
    Right,
}
