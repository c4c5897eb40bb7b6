// A line of the sheet.
ghost use Rattle.std.specs.Prelude.{◌≡◌, Some};
ghost use Rattle.documents.specs.Documents.{line, line_row};
ghost use Rattle.documents.specs.Across.{is_record};

// A remark's text: the first `len` of the bytes. An array with a length beside it, since lines are copied into slots that the
// caller lends: an `ArrayVec` isn't `Copy`, and a `String` would allocate.
#[derive(Clone, Copy)]
pub struct Remark {
    pub len: u8,
    pub bytes: [u8; 24],
}

#[derive(Clone, Copy)]
pub enum Line {
    // The row of a record.
    Record([u32; 4]),
    Remark(Remark),
}

impl Line {
    // Says whether the line is a record.
    pub fn is_record(&self) -> bool
        ensures { result ≡ is_record (Some (line self.now)) }
    {
        matches!(self, Line::Record(_))
    }

    // The row of a record; a remark has none.
    pub fn row(&self) -> Option<[u32; 4]>
        ensures { result ≡ line_row (line self.now) }
    {
        match self {
            Line::Record(row) => Some(*row),
            Line::Remark(_) => None,
        }
    }
}
