// A line that has begun, by its first characters: 81 are enough to see that it has more than 80.
ghost use Rattle.std.specs.Prelude.{◌≡◌, ◌≤◌, [], ◌++◌, length, take, ◌==◌};

use std::marker::Model;

// The most characters that are kept.
const KEPT: usize = 81;

// A line that has begun. An array with a length beside it, since it is plain data that is copied, which an `ArrayVec` is not.
#[derive(Clone, Copy)]
pub struct PartialLine {
    characters: [u8; KEPT],
    len: usize,
}

// A contract sees the characters that are kept, and those left over past them.
impl Model for PartialLine {
    ghost use Rattle.logs.specs.Begun.{Begun};

    ghost Value = { Begun };

    ghost use Rattle.logs.specs.Partial.{begun, Within, fields, given_back};

    ghost view = { begun };

    ghost invariant = { Within };

    ghost inverse = { fields };

    ghost inverse_ok = { given_back };
}

impl PartialLine {
    // A line that has not begun.
    pub fn new() -> PartialLine
        ensures { result.kept ≡ [] }
    {
        PartialLine {
            characters: [0; KEPT],
            len: 0,
        }
    }

    // Says whether the line has not begun.
    pub fn is_empty(&self) -> bool
        ensures { result ≡ (length self.now.kept == 0) }
    {
        self.len == 0
    }

    // The characters that are kept.
    pub fn as_slice(&self) -> &[u8]
        ensures all { result.now ≡ self.now.kept }
        ensures few { length result.now ≤ 81 }
    {
        &self.characters[..self.len]
    }

    // Goes on with more characters of the line.
    pub fn extend(&mut self, more: &[u8])
        ensures { self.new.kept ≡ take 81 (self.old.kept ++ more.now) }
    {
        let count = more.len().min(KEPT - self.len);
        let end = self.len + count;
        self.characters[self.len..end].copy_from_slice(&more[..count]);
        self.len = end;
    }

    // Forgets the line.
    pub fn clear(&mut self)
        ensures { self.new.kept ≡ [] }
    {
        self.len = 0;
    }
}
