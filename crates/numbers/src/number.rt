ghost use Rattle.std.specs.Prelude.{◌≡◌};
ghost use Rattle.numbers.specs.NumberAt.{number_at};

// The most bytes of a number.
const NUMBER_BYTES: usize = 4;

// The value of the number at a place of some bytes, and the place after it; none where it is not whole or not in shortest form.
pub fn read_number(s: &[u8], at: usize) -> Option<(u32, usize)>
    ensures { result ≡ number_at s.now at }
{
    let mut value: u32 = 0;
    let mut weight: u32 = 1;
    for (k, byte) in s.get(at..)?.iter().take(NUMBER_BYTES).enumerate() {
        let b = u32::from(*byte);
        if b < 128 {
            if b == 0 && 0 < k {
                return None;
            }
            return Some((value + weight * b, at + k + 1));
        }
        value += weight * (b - 128);
        weight *= 128;
    }
    None
}
