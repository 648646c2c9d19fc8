ghost use Rattle.std.specs.Prelude.{◌≡◌};
ghost use Rattle.positions.specs.Members.{no_member};

use model::pattern::{Position, TriplePattern};

// The most triple patterns, and the most variables.
pub const MOST_TRIPLE_PATTERNS: usize = 8;

pub const MOST_VARIABLES: u32 = 8;

// A triple pattern of a check, and the place of its predicate among those that the store declares.
#[derive(Clone, Copy)]
pub struct Member {
    pub triple: TriplePattern,
    pub table: usize,
}

// The triple patterns of a check, their count, and V.
#[derive(Clone, Copy)]
pub struct Pattern {
    pub members: [Member; 8],
    pub count: usize,
    pub width: u32,
}

// What stands at a place that a pattern does not have.
pub fn no_member() -> Member
    ensures { result ≡ no_member }
{
    let triple = TriplePattern {
        subject: Position::Term(0),
        predicate: Position::Term(0),
        object: Position::Term(0),
    };
    Member { triple, table: 0 }
}
