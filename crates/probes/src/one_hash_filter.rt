ghost use Rattle.std.specs.Prelude.{◌≡◌, ◌<◌, ◌≤◌, ◌+◌, ◌*◌, length, replicate};
ghost use Rattle.statistics.specs.Ranges.{has_side_value};
ghost use Rattle.tables.specs.SemiJoins.{Inside};
ghost use Rattle.probes.specs.OneHashFilter.{slot_count, may_contain, ContainsAll, SetByValues};

use statistics::ranges::ValueRange;
use tables::semi_joins::Side;

// Whether n values of a column with a range are filtered: few are not, which would cost more than it saves, nor those
// without gaps, of which a value is told by where it would stand.
pub fn should_filter(range: ValueRange, n: usize) -> bool {
    16 <= n && !range.whole
}

// Inserts the values that the rows of a side have at its column into slots of which none is set.
pub fn insert_values(w: &[u32], side: Side, slots: &mut [u8; 1024])
    requires { Inside w.now side × (slots.old ≡ replicate slot_count 0) }
    ensures contains_all { ContainsAll (has_side_value w.now side) slots.new × (length slots.new ≡ slot_count) }
    ensures set_by_values { SetByValues (has_side_value w.now side) slots.new }
{
    let column = side.column.offset();
    for i in 0..side.rows {
        let slot = w[side.start + 2 * i + column] % 1024;
        slots[slot as usize] = 1;
    }
}

// Whether a value may be one of those that were inserted: its slot is set, or there is no filter.
pub fn may_contain(slots: &[u8], value: u32) -> bool
    ensures { result ≡ may_contain slots.now value }
{
    if slots.len() != 1024 {
        return true;
    }
    slots[(value % 1024) as usize] == 1
}
