// The limits of a site and of T.
pub const MOST_PREDICATES: usize = 16;

pub const MOST_ROWS: usize = 1024;

pub const MOST_TERM: u32 = 16777215;

pub const MOST_THRESHOLD: u32 = 1000;
