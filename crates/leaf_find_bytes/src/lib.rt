// Where a leaf counted in whole bytes, kinds 23 to 27, stands and what it says, or why it is refused: alignment, then its bytes. Nothing is
// listed here.
#![tactic(auto)]

ghost use Rattle.std.specs.Prelude.{◌≡◌, ◌≤◌};
ghost use Rattle.frame.specs.Framed.{Framed};
ghost use Rattle.leaf_find_bytes.specs.Found.{found_string, found_blob, found_text};

use frame::Frame;
use leaf_find_number::{BYTE, Found};
use rules::{BitPlace, ByteLength, Refusal};

// Kind 23: a string up to its zero byte.
pub fn find_string(stream: &[u8], frame: Frame, from: BitPlace) -> Found
    requires { Framed stream.now frame from }
    ensures { result ≡ found_string stream.now frame from }
{
    let bound = frame.bound;
    let place = places::align(from, frame.start, BYTE);
    if frame.bound.0 < place.0 {
        return Found::Refused {
            place: bound,
            why: Refusal::PastBound,
        };
    }
    let at = places::bytes_before(place);
    let end = places::bytes_before(frame.bound);
    let left = end.0 - at.0;
    let text = text::read_before(stream, at, end);
    let count = text.count;
    if count.0 == left {
        return Found::Refused {
            place: from,
            why: Refusal::NoZeroByte,
        };
    }
    if !text.formed {
        return Found::Refused {
            place: from,
            why: Refusal::NotText,
        };
    }
    let bytes = count.0 + 1;
    Found::At {
        bits: places::bits_in(ByteLength(bytes)),
        place,
        value: count.0 as u64,
    }
}

// Kinds 25 and 27: so many bytes, of which nothing is said but where they stand.
pub fn find_blob(stream: &[u8], frame: Frame, from: BitPlace, bytes: ByteLength) -> Found
    requires framed { Framed stream.now frame from }
    requires bytes_bound { bytes.0 ≤ 65535 }
    ensures { result ≡ found_blob frame from bytes.0 }
{
    let bound = frame.bound;
    let place = places::align(from, frame.start, BYTE);
    if frame.bound.0 < place.0 {
        return Found::Refused {
            place: bound,
            why: Refusal::PastBound,
        };
    }
    let bits = places::bits_in(bytes);
    if frame.bound.0 < place.0 + bits {
        return Found::Refused {
            place: bound,
            why: Refusal::PastBound,
        };
    }
    Found::At {
        bits,
        place,
        value: bytes.0 as u64,
    }
}

// Kinds 24 and 26: so many bytes of text, "the count before the first zero byte, or of all".
pub fn find_text(stream: &[u8], frame: Frame, from: BitPlace, bytes: ByteLength) -> Found
    requires framed { Framed stream.now frame from }
    requires bytes_bound { bytes.0 ≤ 65535 }
    ensures { result ≡ found_text stream.now frame from bytes.0 }
{
    match find_blob(stream, frame, from, bytes) {
        Found::Refused { place, why } => Found::Refused { place, why },
        Found::At { place, bits, value } => {
            let text = text::read(stream, places::bytes_before(place), bytes);
            if !text.formed {
                return Found::Refused {
                    place: from,
                    why: Refusal::NotText,
                };
            }
            let count = text.count;
            Found::At {
                bits,
                place,
                value: count.0 as u64,
            }
        }
    }
}
