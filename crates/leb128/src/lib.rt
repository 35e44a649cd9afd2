// LEB128 numbers of at most ten bytes. Nine bytes hold 63 bits, so that a number which ends within them fits 64 bits; the tenth byte
// alone decides whether a longer one does.
#![tactic(auto)]

ghost use Rattle.std.specs.Prelude.{◌≡◌, ◌-◌, ◌≤◌, length, take, drop};
ghost use Rattle.rules.specs.Leb128.{leb_unsigned, leb_signed};
ghost use Rattle.leb128.specs.FirstNine.{NineSay};

use rules::{ByteLength, Leb};

// The weight of the tenth byte's lowest bit.
const TENTH: u64 = 1 << 63;

// The unsigned number that starts at a byte and lies before the bound.
pub fn unsigned(stream: &[u8], at: ByteLength, bound: ByteLength) -> Leb
    requires { bound.0 ≤ length stream.now }
    ensures { result ≡ leb_unsigned (take (bound.0 - at.0) (drop at.0 stream.now)) }
{
    let bytes = readable(stream, at.0, bound.0);
    match first_nine(bytes) {
        Nine::Short => Leb::Past,
        Nine::Ended { value, count } => Leb::Value {
            value,
            bytes: ByteLength(count),
        },
        Nine::GoOn(value) => {
            if bytes.len() <= 9 {
                return Leb::Past;
            }
            // Only its lowest bit lies within the 64: one with any other bit, or one that goes on, makes the number too large.
            let tenth = u64::from(bytes[9]);
            let too_large = 1 < tenth;
            if too_large {
                return Leb::Large;
            }
            Leb::Value {
                value: value + tenth * TENTH,
                bytes: ByteLength(10),
            }
        }
    }
}

// The signed number that starts at a byte and lies before the bound.
pub fn signed(stream: &[u8], at: ByteLength, bound: ByteLength) -> Leb
    requires { bound.0 ≤ length stream.now }
    ensures { result ≡ leb_signed (take (bound.0 - at.0) (drop at.0 stream.now)) }
{
    let bytes = readable(stream, at.0, bound.0);
    match first_nine(bytes) {
        Nine::Short => Leb::Past,
        Nine::Ended { value, count } => {
            let width = 7 * count as u64;
            Leb::Value {
                value: bits::sign_extend(value, width),
                bytes: ByteLength(count),
            }
        }
        Nine::GoOn(value) => {
            if bytes.len() <= 9 {
                return Leb::Past;
            }
            // Its seven bits must all be the sign, since the lowest of them is the last within the 64.
            match bytes[9] {
                0 => Leb::Value {
                    value,
                    bytes: ByteLength(10),
                },
                127 => Leb::Value {
                    value: value + TENTH,
                    bytes: ByteLength(10),
                },
                _ => Leb::Large,
            }
        }
    }
}

// What the first nine bytes of a number say: three answers, none of them a failure.
#[derive(Clone, Copy)]
enum Nine {
    // It ends after so many of them.
    Ended { value: u64, count: usize },
    // There are fewer than nine, and all go on.
    Short,
    // All nine go on: the number of their 63 bits.
    GoOn(u64),
}

fn first_nine(bytes: &[u8]) -> Nine
    ensures { NineSay bytes.now result }
{
    let mut value: u64 = 0;
    for passed in 0..9 {
        if bytes.len() <= passed {
            return Nine::Short;
        }
        let byte = u64::from(bytes[passed]);
        value = value + ((byte % 128) << (7 * passed as u64));
        if byte < 128 {
            let count = passed + 1;
            return Nine::Ended { value, count };
        }
    }
    Nine::GoOn(value)
}

// The bytes from a place on that lie before the bound.
fn readable(stream: &[u8], at: usize, bound: usize) -> &[u8]
    requires { bound ≤ length stream.now }
    ensures { result.now ≡ take (bound - at) (drop at stream.now) }
{
    stream.get(at..bound).unwrap_or(&[])
}
