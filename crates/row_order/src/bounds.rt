ghost use Rattle.std.specs.Prelude.{◌≡◌, ◌≤◌, ◌+◌, length, take, drop, leb};
ghost use Rattle.model.specs.Lists.{all};

// Whether none of the n words at `start` is above `most`. None ends the walk, so that several are compared at once.
pub fn all_at_most(w: &[u32], start: usize, n: usize, most: u32) -> bool
    requires { start + n ≤ length w.now }
    ensures { result ≡ all (λ x. leb x most) (take n (drop start w.now)) }
{
    let mut within = true;
    for word in &w[start..start + n] {
        if most < *word {
            within = false;
        }
    }
    within
}
