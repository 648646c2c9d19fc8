// A position of a triple pattern: a fixed term or a numbered variable.
#[derive(Clone, Copy)]
pub enum Position {
    Term(u32),
    Var(u32),
}

#[derive(Clone, Copy)]
pub struct TriplePattern {
    pub subject: Position,
    pub predicate: Position,
    pub object: Position,
}
