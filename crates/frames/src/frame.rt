// What a frame says: an operation, from one of the two sides.
use kinds::change::Change;
use kinds::side::Side;

// An operation on a document. A remark's text is a part of the frame's bytes.
#[derive(Clone, Copy)]
pub enum Operation<'a> {
    Keep,
    Insert {
        at: usize,
    },
    Remark {
        at: usize,
        text: &'a [u8],
    },
    Delete {
        at: usize,
    },
    Move {
        from: usize,
        to: usize,
    },
    Change {
        at: usize,
        column: u8,
        change: Change,
    },
}

#[derive(Clone, Copy)]
pub struct Frame<'a> {
    pub side: Side,
    pub operation: Operation<'a>,
}
