// A text in pieces of 32 bytes, and where it stands in the stream.
ghost use Rattle.std.specs.Prelude.{◌≡◌, ◌+◌, ◌-◌, ◌/◌, ◌≤◌, length, take, drop};
ghost use Rattle.std.proofs.lemmas.List.Edits.{sets};
ghost use Rattle.screen_line.specs.Pieces.{text_part};
ghost use Rattle.screen_line.specs.Room.{from_in, bytes_in};

use screen_number::put_bytes;
use screen_text::put_part;

// Where the bytes of an entry begin, and how many of them the stream has: no entry of a reading goes past the stream, and of no other is
// more shown.
pub(crate) fn from_of(stream: &[u8], place: u64) -> usize
    ensures { result ≡ from_in (length stream.now) place }
{
    let from = (place / 8) as usize;
    if stream.len() < from {
        return stream.len();
    }
    from
}

pub(crate) fn bytes_of(stream: &[u8], place: u64, value: u64) -> usize
    ensures { result ≡ bytes_in (length stream.now) place value }
{
    let room = stream.len() - from_of(stream, place);
    let n = value as usize;
    if room < n {
        return room;
    }
    n
}

// The kth piece of a text, which is so many bytes of the stream from a byte of it on.
pub(crate) fn put_text_part(
    out: &mut [u8],
    stream: &[u8],
    from: usize,
    bytes: usize,
    k: usize,
) -> usize
    requires in_bounds { 256 ≤ length out.old }
    requires bytes_in_bounds { from + bytes ≤ length stream.now }
    ensures value { result ≡ 0 + length (text_part (take bytes (drop from stream.now)) k) }
    ensures out_after { out.new ≡ sets out.old 0 (text_part (take bytes (drop from stream.now)) k) }
{
    if k < bytes / 32 {
        return put_part(out, 0, stream, from, bytes, 32 * k, 32);
    }
    if k == bytes / 32 {
        let a = put_part(out, 0, stream, from, bytes, 32 * k, bytes % 32);
        return put_bytes(out, a, b"\"\n");
    }
    0
}
