ghost use Rattle.std.specs.Prelude.{◌≡◌};
ghost use Rattle.model.specs.Results.{refusal_number};

// What a question that is answered no says. Its number is that of the question: 1 to 9 of a build, 10 to 17 of a check over a store, 18 to
// 20 of a given plan, 21 of the rows.
#[derive(Clone, Copy, Debug, PartialEq, Eq)]
pub enum Refusal {
    ThresholdTooHigh = 1,
    SiteNumberMalformed = 2,
    TooManyPredicates = 3,
    PredicatesNotAscending = 4,
    TooManyRows = 5,
    RowNotOfTerms = 6,
    RowsNotAscending = 7,
    SiteNotEnded = 8,
    StoreTooSmall = 9,
    NotAStore = 10,
    PatternNumberMalformed = 11,
    PatternSizeOutOfRange = 12,
    PredicateNotATerm = 13,
    PredicateNotDeclared = 14,
    PositionNotATerm = 15,
    VariableOutOfOrder = 16,
    PatternNotEnded = 17,
    PlanMalformed = 18,
    PlaceNotFree = 19,
    ChoiceNotQualified = 20,
    RowsDoNotFit = 21,
}

impl From<Refusal> for u32 {
    ghost from_gives = { λ refusal number. number ≡ refusal_number refusal };

    fn from(refusal: Refusal) -> u32 {
        refusal as u32
    }
}
