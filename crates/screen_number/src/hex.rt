// Numbers in base 16.
ghost use Rattle.std.specs.Prelude.{◌≡◌, ◌+◌, ◌≤◌, length};
ghost use Rattle.std.proofs.lemmas.List.Edits.{sets};
ghost use Rattle.screen_number.specs.Number.{glyph as Number·glyph, hex as Number·hex};

// A number's last so many digits, the first at the place.
pub fn put_hex(out: &mut [u8], at: usize, digits: usize, n: u64) -> usize
    requires { at + digits ≤ length out.old }
    ensures value { result ≡ at + length (Number·hex digits n) }
    ensures out_after { out.new ≡ sets out.old at (Number·hex digits n) }
{
    if digits == 0 {
        return at;
    }
    let end = put_hex(out, at, digits - 1, n / 16);
    out[end] = glyph((n % 16) as u8);
    end + 1
}

// What a letter's digit is added to: the byte of `a`, less 10.
const LETTERS: u8 = 87;

fn glyph(d: u8) -> u8
    requires { d ≤ 15 }
    ensures { result ≡ Number·glyph d }
{
    if d < 10 {
        return b'0' + d;
    }
    LETTERS + d
}
