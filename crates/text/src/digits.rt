ghost use Rattle.std.specs.Prelude.{◌≡◌, ◌≤◌, ◌+◌, length};
ghost use Rattle.std.proofs.lemmas.List.Edits.{sets};
ghost use Rattle.model.specs.Text.{decimal};

// Puts a number in decimal at a place, and gives the place after it.
pub fn put_decimal(n: u64, out: &mut [u8], at: usize) -> usize
    requires { at + length (decimal n) ≤ length out.old }
    ensures value { result ≡ at + length (decimal n) }
    ensures out_after { out.new ≡ sets out.old at (decimal n) }
{
    if n < 10 {
        out[at] = b'0' + n as u8;
        return at + 1;
    }
    let next = put_decimal(n / 10, out, at);
    out[next] = b'0' + (n % 10) as u8;
    next + 1
}
