ghost use Rattle.std.specs.Prelude.{◌≡◌};
ghost use Rattle.statistics.specs.IndexedTables.{SearchableBy};
ghost use Rattle.statistics.specs.Ranges.{has_side_value};
ghost use Rattle.probes.specs.OneHashFilter.{ToldBy};

use crate::one_hash_filter::may_contain;
use searching::search::has_word;
use tables::columns::Column;
use tables::semi_joins::Side;

// Whether some row of a side has a value at its column: by search in the rows where it is the subject, else in their objects'
// sorted copy, which has a word for each row behind `first`. A value that the filter does not contain is not searched, nor one that is not
// between the lowest and the highest; nor any of those between, where no two of them have one slot.
pub fn has_partner(
    w: &[u32],
    objects: &[u32],
    first: usize,
    slots: &[u8],
    lowest: u32,
    highest: u32,
    side: Side,
    value: u32,
) -> bool
    requires searchable_by { SearchableBy w.now objects.now first side }
    requires told_by { ToldBy (has_side_value w.now side) slots.now lowest highest }
    ensures { result ≡ has_side_value w.now side value }
{
    if !may_contain(slots, value) || value < lowest || highest < value {
        return false;
    }
    // As many numbers as slots at most: only the value itself can have set its slot.
    if slots.len() == 1024 && highest - lowest < 1024 {
        return true;
    }
    let n = side.rows;
    match side.column {
        Column::Subject => has_word(w, side.start, 2, n, value),
        Column::Object => has_word(objects, (side.start - first) / 2, 1, n, value),
    }
}
