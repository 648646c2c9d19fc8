ghost use Rattle.std.specs.Prelude.{◌≡◌, ◌≤◌, ◌+◌, length, take, drop};
ghost use Rattle.std.proofs.lemmas.List.Edits.{sets};

// The n words from `start` on, over the front of other words.
pub fn copy_words(words: &[u32], start: usize, n: usize, front: &mut [u32])
    requires { (start + n ≤ length words.now) × (n ≤ length front.old) }
    ensures { front.new ≡ sets front.old 0 (take n (drop start words.now)) }
{
    for i in 0..n {
        front[i] = words[start + i];
    }
}
