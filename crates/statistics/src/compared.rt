ghost use Rattle.std.specs.Prelude.{◌≡◌, ◌||◌};
ghost use Rattle.tables.specs.Kinds.{kind_as};
ghost use Rattle.statistics.specs.Compared.{compares, are_compared};

use tables::kinds::Kind;

// Whether a kind compares a column of the row with a column of its partner, by the places of their words in a row.
fn kind_compares(kind: Kind, a: usize, b: usize) -> bool
    ensures { result ≡ compares (kind_as kind) a b }
{
    kind.own().offset() == a && kind.partner().offset() == b
}

// Whether some kind compares two columns, either way.
pub fn are_compared(a: usize, b: usize) -> bool
    ensures { result ≡ are_compared a b }
{
    Kind::ALL.iter().any(|kind| kind_compares(*kind, a, b) || kind_compares(*kind, b, a))
}
