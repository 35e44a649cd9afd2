// Decimal numbers.
ghost use Rattle.std.specs.Prelude.{◌≡◌, ◌+◌, ◌≤◌, length};
ghost use Rattle.std.proofs.lemmas.List.Edits.{sets};
ghost use Rattle.screen_number.specs.Number.{decimal, signed_decimal};

// A number's digits, the first at the place.
pub fn put_decimal(out: &mut [u8], at: usize, n: u64) -> usize
    requires { at + length (decimal n) ≤ length out.old }
    ensures value { result ≡ at + length (decimal n) }
    ensures out_after { out.new ≡ sets out.old at (decimal n) }
{
    if n < 10 {
        out[at] = 48 + n as u8;
        return at + 1;
    }
    let end = put_decimal(out, at, n / 10);
    out[end] = 48 + (n % 10) as u8;
    end + 1
}

// A word in two's complement, with its sign.
pub(crate) fn put_signed(out: &mut [u8], at: usize, word: u64) -> usize
    requires { at + length (signed_decimal word) ≤ length out.old }
    ensures value { result ≡ at + length (signed_decimal word) }
    ensures out_after { out.new ≡ sets out.old at (signed_decimal word) }
{
    if word < 0x8000_0000_0000_0000 {
        return put_decimal(out, at, word);
    }
    out[at] = b'-';
    put_decimal(out, at + 1, 0xFFFF_FFFF_FFFF_FFFF - word + 1)
}
