ghost use Rattle.std.specs.Prelude.{◌≡◌, ◌<◌};
ghost use Rattle.tables.specs.Columns.{offset_of};

// A column of a row.
#[derive(Clone, Copy, Debug, PartialEq, Eq)]
pub enum Column {
    Subject,
    Object,
}

impl Column {
    // Where its word stands in the row.
    pub fn offset(self) -> usize
        ensures upper_bound { result < 2 }
        ensures value { result ≡ offset_of self }
    {
        self as usize
    }
}
