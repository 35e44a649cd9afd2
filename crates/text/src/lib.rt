// The bytes of strings as text: how many stand before the first zero byte, and whether these are well-formed UTF-8 (RFC 3629). Both kinds
// of strings use it. What is plain ASCII, and most text is, is passed over once, one test for eight bytes where eight are there.
#![tactic(auto)]

ghost use Rattle.std.specs.Prelude.{◌≡◌, ◌+◌, ◌-◌, ◌*◌, ◌/◌, ◌<◌, ◌≤◌, leb, length, take, drop};
ghost use Rattle.std.specs.List.{prefix_len};
ghost use Rattle.rules.specs.Text.{utf8};
ghost use Rattle.text.specs.Reading.{text_of, plain_length, is_some, is_plain, bytes_due, none_due, first_due, due_behind};

use rules::{ByteLength, Order};

// The high bit of each of eight bytes.
const HIGH: u64 = 0x8080_8080_8080_8080;

// Of so many bytes, "the count before the first zero byte, or of all" (Reading); and whether these are text.
#[derive(Clone, Copy)]
pub struct Text {
    pub count: ByteLength,
    pub formed: bool,
}

// Of a character that has begun: how many of its bytes are still to come, and the range of the next one. A range of no byte lets nothing
// through.
#[derive(Clone, Copy)]
struct Due {
    more: u8,
    low: u8,
    high: u8,
}

// So many bytes from one on, as text.
pub fn read(stream: &[u8], at: ByteLength, bytes: ByteLength) -> Text
    requires { at.0 + bytes.0 ≤ length stream.now }
    ensures { result ≡ text_of (take bytes.0 (drop at.0 stream.now)) }
{
    told(stream, at.0, bytes.0)
}

// The bytes from one on, before another, as text.
pub fn read_before(stream: &[u8], at: ByteLength, end: ByteLength) -> Text
    requires { (at.0 ≤ end.0) × (end.0 ≤ length stream.now) }
    ensures { result ≡ text_of (take (end.0 - at.0) (drop at.0 stream.now)) }
{
    told(stream, at.0, end.0 - at.0)
}

// Never inlined, so that LLVM leaves its loops out of the leaves' own.
#[inline(never)]
fn told(stream: &[u8], at: usize, count: usize) -> Text
    requires { at + count ≤ length stream.now }
    ensures { result ≡ text_of (take count (drop at stream.now)) }
{
    let bytes = &stream[at..at + count];
    let eights = plain_eights(bytes);
    let plain = eights + plain_from(&bytes[eights..]);
    if plain == count {
        return Text {
            count: ByteLength(count),
            formed: true,
        };
    }
    let is_zero = bytes[plain] == 0;
    if is_zero {
        return Text {
            count: ByteLength(plain),
            formed: true,
        };
    }
    let behind = &bytes[plain..];
    let rest = text_from(behind);
    let counted = plain + rest;
    let is_formed = formed(&behind[..rest]);
    Text {
        count: ByteLength(counted),
        formed: is_formed,
    }
}

// The bytes in front that are plain ASCII and not zero.
fn plain_from(bytes: &[u8]) -> usize
    ensures { result ≡ prefix_len is_plain bytes.now }
{
    bytes
        .iter()
        .take_while(|byte| **byte != 0 && **byte < 128)
        .count()
}

// As many of them as are whole eights.
fn plain_eights(bytes: &[u8]) -> usize
    ensures { (result ≡ plain_length bytes.now / 8 * 8) × (result ≤ length bytes.now) }
{
    for i in 0..bytes.len() / 8 {
        let at = 8 * i;
        if !eight_plain(bytes, at) {
            return at;
        }
    }
    bytes.len() / 8 * 8
}

// Whether eight such bytes stand from a byte on: none has its high bit; and then 0x80 less each, which borrows from no other byte, has it
// just where that byte is zero. LLVM makes one test of both.
fn eight_plain(stream: &[u8], at: usize) -> bool
    requires { at + 8 ≤ length stream.now }
    ensures { result ≡ leb 8 (plain_length (drop at stream.now)) }
{
    let number = bits::eight(stream, at, Order::Little);
    number & HIGH == 0 && (HIGH - number) & HIGH == 0
}

// The bytes in front that are not zero.
fn text_from(bytes: &[u8]) -> usize
    ensures { result ≡ prefix_len is_some bytes.now }
{
    bytes.iter().take_while(|byte| **byte != 0).count()
}

// Whether bytes are characters, one behind the other, the last one whole.
fn formed(bytes: &[u8]) -> bool
    ensures { result ≡ utf8 bytes.now }
{
    let mut due = bytes_due(0, 0, 0);
    for byte in bytes {
        due = behind(due, *byte);
    }
    due.more == 0
}

// What is due behind a byte, by what was due before it.
fn behind(was: Due, byte: u8) -> Due
    ensures { result ≡ due_behind was byte }
{
    if was.more == 0 {
        return first(byte);
    }
    if byte < was.low {
        return none();
    }
    if was.high < byte {
        return none();
    }
    Due {
        more: was.more - 1,
        low: 0x80,
        high: 0xBF,
    }
}

// The nine rows of RFC 3629, section 4, by a character's first byte.
fn first(byte: u8) -> Due
    ensures { result ≡ first_due byte }
{
    if byte < 0x80 {
        return bytes_due(0, 0x80, 0xBF);
    }
    if byte < 0xC2 {
        return none();
    }
    if byte < 0xE0 {
        return bytes_due(1, 0x80, 0xBF);
    }
    if byte < 0xF0 {
        return first_of_three(byte);
    }
    first_of_four(byte)
}

fn first_of_three(byte: u8) -> Due
    requires le_byte { 0xE0 ≤ byte }
    requires byte_bound { byte < 0xF0 }
    ensures { result ≡ first_due byte }
{
    if byte == 0xE0 {
        return bytes_due(2, 0xA0, 0xBF);
    }
    if byte == 0xED {
        return bytes_due(2, 0x80, 0x9F);
    }
    bytes_due(2, 0x80, 0xBF)
}

fn first_of_four(byte: u8) -> Due
    requires { 0xF0 ≤ byte }
    ensures { result ≡ first_due byte }
{
    if byte == 0xF0 {
        return bytes_due(3, 0x90, 0xBF);
    }
    if byte == 0xF4 {
        return bytes_due(3, 0x80, 0x8F);
    }
    if 0xF4 < byte {
        return none();
    }
    bytes_due(3, 0x80, 0xBF)
}

fn bytes_due(more: u8, low: u8, high: u8) -> Due
    ensures { result ≡ bytes_due more low high }
{
    Due { more, low, high }
}

// No character begins so, or goes on so.
fn none() -> Due
    ensures { result ≡ none_due }
{
    bytes_due(1, 1, 0)
}
