ghost use Rattle.std.specs.Prelude.{◌≡◌, ◌<◌, ◌+◌};
ghost use Rattle.searching.specs.Search.{SortedRun, FirstBelow, IsLowerBound, has_word};

// How many of n ascending words, `stride` apart from `base` on, are below a value.
pub fn lower_bound(words: &[u32], base: usize, stride: usize, n: usize, value: u32) -> usize
    requires { SortedRun words.now base stride n }
    ensures { IsLowerBound words.now base stride n value result }
{
    let mut low: usize = 0;
    let mut high = n;
    while low < high {
        let middle = low + (high - low) / 2;
        if words[base + stride * middle] < value {
            low = middle + 1;
        } else {
            high = middle;
        }
    }
    low
}

// The same. Terms are often numbered in a row: the place is tried first that the value has then.
pub fn guessed_lower_bound(words: &[u32], base: usize, stride: usize, n: usize, value: u32) -> usize
    requires { SortedRun words.now base stride n }
    ensures { IsLowerBound words.now base stride n value result }
{
    if n == 0 {
        return 0;
    }
    let first = words[base];
    if value <= first {
        return 0;
    }
    let guess = (value - first) as usize;
    // Of equal words the first is the place: the word before it is smaller.
    if guess < n
        && words[base + stride * (guess - 1)] < value
        && value <= words[base + stride * guess]
    {
        return guess;
    }
    lower_bound(words, base, stride, n, value)
}

// The same, by a walk from a place before which all words are below: for values that ascend, each walk goes on where the last one ended.
pub fn lower_bound_from(
    words: &[u32],
    base: usize,
    stride: usize,
    n: usize,
    from: usize,
    value: u32,
) -> usize
    requires { SortedRun words.now base stride n × FirstBelow words.now base stride n value from }
    ensures { IsLowerBound words.now base stride n value result }
{
    for place in from..n {
        if value <= words[base + stride * place] {
            return place;
        }
    }
    n
}

// How many of n ascending words are at most a value.
pub fn upper_bound(words: &[u32], base: usize, stride: usize, n: usize, value: u32) -> usize
    requires { SortedRun words.now base stride n }
    ensures { IsLowerBound words.now base stride n (value + 1) result }
{
    if n == 0 || words[base + stride * (n - 1)] <= value {
        return n;
    }
    guessed_lower_bound(words, base, stride, n, value + 1)
}

// Whether one of n ascending words has a value, by search.
fn search_word(words: &[u32], base: usize, stride: usize, n: usize, value: u32) -> bool
    requires { SortedRun words.now base stride n × (0 < n) }
    ensures { result ≡ has_word words.now base stride n value }
{
    if words[base + stride * (n - 1)] < value {
        return false;
    }
    let place = lower_bound(words, base, stride, n, value);
    words[base + stride * place] == value
}

// The same. Terms are often numbered in a row: the place is tried first that the value has then.
pub fn has_word(words: &[u32], base: usize, stride: usize, n: usize, value: u32) -> bool
    requires { SortedRun words.now base stride n }
    ensures { result ≡ has_word words.now base stride n value }
{
    if n == 0 {
        return false;
    }
    let lowest = words[base];
    if value < lowest {
        return false;
    }
    let guess = (value - lowest) as usize;
    if guess < n && words[base + stride * guess] == value {
        return true;
    }
    search_word(words, base, stride, n, value)
}
