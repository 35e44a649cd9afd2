// Strings of a trace, shown as they are but for what could drive a terminal, break a line or end the quotes. A text may be shown in parts:
// how a byte is shown goes by the two before it and the two behind it.
//
// In hidden: which bytes are not shown as they are.
#![tactic(auto)]

ghost use Rattle.std.specs.Prelude.{◌≡◌, ◌+◌, ◌*◌, ◌<◌, ◌≤◌, length, take, drop, get_or};
ghost use Rattle.std.proofs.lemmas.List.Edits.{sets};
ghost use Rattle.screen_text.specs.Escape.{escaped, marked as Escape·marked, before, shown_at, part};

use hidden::hidden;
use screen_number::put_hex;

mod hidden;

// So many bytes of a text, from one of them on; the text is so many bytes of the stream, from a byte of it on.
pub fn put_part(
    out: &mut [u8],
    at: usize,
    stream: &[u8],
    from: usize,
    bytes: usize,
    done: usize,
    n: usize,
) -> usize
    requires n_in_bounds { at + 4 * n ≤ length out.old }
    requires bytes_in_bounds { (from + bytes ≤ length stream.now) × (done + n ≤ bytes) }
    ensures value { result ≡ at + length (part (take bytes (drop from stream.now)) done n) }
    ensures out_after { out.new ≡ sets out.old at (part (take bytes (drop from stream.now)) done n) }
{
    let mut end = at;
    for shown in 0..n {
        end = put_byte(out, end, stream, from, bytes, done + shown);
    }
    end
}

// A byte of a text as it is shown.
fn put_byte(out: &mut [u8], at: usize, stream: &[u8], from: usize, bytes: usize, i: usize) -> usize
    requires at_in_bounds { at + 4 ≤ length out.old }
    requires bytes_in_bounds { (from + bytes ≤ length stream.now) × (i < bytes) }
    ensures value { result ≡ at + length (shown_at (take bytes (drop from stream.now)) i) }
    ensures out_after { out.new ≡ sets out.old at (shown_at (take bytes (drop from stream.now)) i) }
{
    let a = byte_before(stream, from, bytes, i, 2);
    let b = byte_before(stream, from, bytes, i, 1);
    let c = byte_at(stream, from, bytes, i);
    let d = byte_at(stream, from, bytes, i + 1);
    let e = byte_at(stream, from, bytes, i + 2);
    put_escaped(out, at, hidden(a, b, c, d, e), c)
}

// A byte of a text; 0 behind it.
fn byte_at(stream: &[u8], from: usize, bytes: usize, i: usize) -> u8
    requires { from + bytes ≤ length stream.now }
    ensures { result ≡ get_or (take bytes (drop from stream.now)) i 0 }
{
    if i < bytes {
        return stream[from + i];
    }
    0
}

// The byte that stands so many before one; 0 in front of the text.
fn byte_before(stream: &[u8], from: usize, bytes: usize, i: usize, k: usize) -> u8
    requires { from + bytes ≤ length stream.now }
    ensures { result ≡ before (take bytes (drop from stream.now)) i k }
{
    if i < k {
        return 0;
    }
    byte_at(stream, from, bytes, i - k)
}

// A byte: by its two digits, behind a backslash, or itself.
fn put_escaped(out: &mut [u8], at: usize, hidden: bool, c: u8) -> usize
    requires { at + 4 ≤ length out.old }
    ensures value { result ≡ at + length (escaped hidden c) }
    ensures out_after { out.new ≡ sets out.old at (escaped hidden c) }
{
    if hidden {
        out[at] = b'\\';
        out[at + 1] = b'x';
        return put_hex(out, at + 2, 2, u64::from(c));
    }
    if marked(c) {
        out[at] = b'\\';
        out[at + 1] = c;
        return at + 2;
    }
    out[at] = c;
    at + 1
}

// A quote or a backslash stands behind a backslash.
fn marked(c: u8) -> bool
    ensures { result ≡ Escape·marked c }
{
    if c == b'"' {
        return true;
    }
    c == b'\\'
}
