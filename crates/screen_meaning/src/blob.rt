// Bytes and bits in hexadecimal.
ghost use Rattle.std.specs.Prelude.{◌≡◌, ◌+◌, ◌*◌, ◌<◌, ◌≤◌, length, take, drop};
ghost use Rattle.std.proofs.lemmas.List.Edits.{sets};
ghost use Rattle.screen_meaning.specs.Bytes.{hexes, more, blob as Bytes·blob, digits_of, bit_array};

use screen_number::{put_bytes, put_decimal, put_hex};

// A BLOB, which is so many bytes of the stream from a byte of it on: its first bytes, and how many there are more.
pub fn put_blob(out: &mut [u8], at: usize, stream: &[u8], from: usize, bytes: usize) -> usize
    requires at_in_bounds { at + 96 ≤ length out.old }
    requires bytes_in_bounds { from + bytes ≤ length stream.now }
    ensures value { result ≡ at + length (Bytes·blob (take bytes (drop from stream.now))) }
    ensures out_after { out.new ≡ sets out.old at (Bytes·blob (take bytes (drop from stream.now))) }
{
    if 32 < bytes {
        let end = put_hexes(out, at, stream, from, 32);
        return put_more(out, end, bytes);
    }
    put_hexes(out, at, stream, from, bytes)
}

// A bit array's value, a digit for each four of its bits.
pub fn put_bit_array(out: &mut [u8], at: usize, bits: u64, value: u64) -> usize
    requires { at + 96 ≤ length out.old }
    ensures value { result ≡ at + length (bit_array bits value) }
    ensures out_after { out.new ≡ sets out.old at (bit_array bits value) }
{
    let digits = digits_of(bits);
    let end = put_bytes(out, at, b"0x");
    put_hex(out, end, digits, value)
}

fn put_hexes(out: &mut [u8], at: usize, stream: &[u8], from: usize, n: usize) -> usize
    requires n_in_bounds { at + 2 * n ≤ length out.old }
    requires n_in_bounds_2 { from + n ≤ length stream.now }
    ensures value { result ≡ at + length (hexes (take n (drop from stream.now))) }
    ensures out_after { out.new ≡ sets out.old at (hexes (take n (drop from stream.now))) }
{
    let mut end = at;
    for shown in 0..n {
        end = put_hex(out, end, 2, u64::from(stream[from + shown]));
    }
    end
}

fn put_more(out: &mut [u8], at: usize, bytes: usize) -> usize
    requires at_in_bounds { at + 32 ≤ length out.old }
    requires lt_bytes { 32 < bytes }
    ensures value { result ≡ at + length (more bytes) }
    ensures out_after { out.new ≡ sets out.old at (more bytes) }
{
    let a = put_bytes(out, at, b" + ");
    let b = put_decimal(out, a, (bytes - 32) as u64);
    put_bytes(out, b, b" bytes")
}

fn digits_of(bits: u64) -> usize
    ensures { result ≡ digits_of bits }
{
    if 60 < bits {
        return 16;
    }
    ((bits + 3) / 4) as usize
}
