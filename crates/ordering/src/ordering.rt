ghost use Rattle.std.specs.Prelude.{◌≡◌, ◌≤◌};
ghost use Rattle.model.specs.Pattern.{most_triple_patterns};
ghost use Rattle.ordering.specs.Flags.{some_joined, beats_by, pick_by};

// Some remaining place shares a variable with those taken.
fn some_joined(count: usize, taken: &[bool; 8], joined: &[bool; 8]) -> bool
    requires { count ≤ most_triple_patterns }
    ensures { result ≡ some_joined count taken.now joined.now }
{
    for i in 0..count {
        if !taken[i] && joined[i] {
            return true;
        }
    }
    false
}

// More terms win, then fewer rows.
fn beats(terms: usize, rows: usize, most: usize, fewest: usize) -> bool
    ensures { result ≡ beats_by terms rows most fewest }
{
    most < terms || (terms == most && rows < fewest)
}

// The next place: the first of the competitors that none beats. While some remaining place shares a variable with those
// taken, only such ones compete; else all do.
pub fn pick(
    count: usize,
    taken: &[bool; 8],
    joined: &[bool; 8],
    terms: &[usize; 8],
    rows: &[usize; 8],
) -> usize
    requires { count ≤ most_triple_patterns }
    ensures { result ≡ pick_by count taken.now joined.now terms.now rows.now }
{
    let narrowed = some_joined(count, taken, joined);
    let mut found = false;
    let mut best: usize = 0;
    for i in 0..count {
        if !taken[i] && (joined[i] || !narrowed) {
            if !found || beats(terms[i], rows[i], terms[best], rows[best]) {
                best = i;
                found = true;
            }
        }
    }
    best
}
