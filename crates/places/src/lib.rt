// Places in bits and lengths in bytes: aligning, going on, and the only functions that go from one of the two types to the other.
// A stream of 536,870,911 bytes has no place above 2 to the 32, so that all of its places are far below what the functions ask. None is a
// `From`, which may neither ask anything nor drop bits.
#![tactic(auto)]

ghost use Rattle.std.specs.Prelude.{◌≡◌, ◌+◌, ◌*◌, ◌/◌, ◌^◌, ◌<◌, ◌≤◌};
ghost use Rattle.rules.specs.Place.{bit_place, byte_length, further, align_from};

use rules::{BitPlace, ByteLength};

// "A field aligns (place - P) up to its requirement" (Reading), which is 2 to an exponent of 0 to 6; P is the packet's start.
pub fn align(place: BitPlace, start: BitPlace, exponent: u64) -> BitPlace
    requires { (start.0 ≤ place.0) × (exponent ≤ 6) × (place.0 + 64 ≤ 2 ^ 64) }
    ensures { result ≡ bit_place (align_from start.0 (2 ^ exponent) place.0) }
{
    BitPlace(aligned(place.0, start.0, exponent))
}

// By hand: `next_multiple_of` asks first whether anything is left over, a test and a move more for each field.
fn aligned(place: u64, start: u64, exponent: u64) -> u64
    requires { (start ≤ place) × (exponent ≤ 6) × (place + 64 ≤ 2 ^ 64) }
    ensures { result ≡ align_from start (2 ^ exponent) place }
{
    let unit: u64 = 1 << exponent;
    start + (place - start + (unit - 1)) / unit * unit
}

// The place so many bits on.
pub fn further(place: BitPlace, bits: u64) -> BitPlace
    requires { place.0 + bits < 2 ^ 64 }
    ensures { result ≡ further place bits }
{
    BitPlace(place.0 + bits)
}

// The bits that some bytes have.
pub fn bits_in(bytes: ByteLength) -> u64
    requires { bytes.0 < 2 ^ 60 }
    ensures { result ≡ 8 * bytes.0 }
{
    8 * (bytes.0 as u64)
}

// The place behind so many bytes.
pub fn place_behind(bytes: ByteLength) -> BitPlace
    requires { bytes.0 < 2 ^ 60 }
    ensures { result ≡ bit_place (8 * bytes.0) }
{
    BitPlace(8 * (bytes.0 as u64))
}

// "L the field's bits (7 times its bytes for LEB128)" (Reading): of the bits of whole bytes, seven a byte.
pub fn stamp_bits(bits: u64) -> u64
    ensures { result ≡ 7 * (bits / 8) }
{
    7 * (bits / 8)
}

// The whole bytes before a place.
pub fn bytes_before(place: BitPlace) -> ByteLength
    ensures { result ≡ byte_length (place.0 / 8) }
{
    ByteLength((place.0 / 8) as usize)
}
