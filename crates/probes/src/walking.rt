ghost use Rattle.std.specs.Prelude.{◌≡◌, true, false, MatchResult};
ghost use Rattle.searching.specs.Search.{SortedRun, FirstBelow, has_word};
ghost use Rattle.probes.specs.OneHashFilter.{ContainsAll};

use crate::one_hash_filter::may_contain;
use searching::search::lower_bound_from;

// Where one of n ascending words has a value, by a walk from a place before which all words are below it; else the place to go on from. For a
// value that is not contained in the filter the walk does not go on.
pub fn walk_to(
    words: &[u32],
    base: usize,
    stride: usize,
    n: usize,
    slots: &[u8],
    from: usize,
    value: u32,
) -> Result<usize, usize>
    requires sorted_run { SortedRun words.now base stride n × ContainsAll (has_word words.now base stride n) slots.now }
    requires first_below { FirstBelow words.now base stride n value from }
    ensures found_value { MatchResult result (λ place. has_word words.now base stride n value ≡ true) (λ place. has_word words.now base stride n value ≡ false) }
    ensures first_below_2 { MatchResult result (λ place. FirstBelow words.now base stride n value place) (λ place. FirstBelow words.now base stride n value place) }
{
    if !may_contain(slots, value) {
        return Err(from);
    }
    let place = lower_bound_from(words, base, stride, n, from, value);
    if place < n && words[base + stride * place] == value {
        return Ok(place);
    }
    Err(place)
}
