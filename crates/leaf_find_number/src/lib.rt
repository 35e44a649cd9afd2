// Where a leaf that is a number, kinds 16 to 22, stands and what it says, or why it is refused: alignment, order, then its bits or bytes.
// Nothing of it is listed here. Kinds 23 to 27 are in the crate above, leaf_find_bytes.
#![tactic(auto)]

ghost use Rattle.std.specs.Prelude.{◌≡◌, not, ◌&&◌, ◌+◌, ◌%◌, ◌^◌, ◌≤◌, eqb};
ghost use Rattle.rules.specs.Field.{other_order};
ghost use Rattle.frame.specs.Framed.{Framed};
ghost use Rattle.leaf_find_number.specs.Found.{Short};
ghost use Rattle.leaf_find_number.specs.Found.{found_bits, found_unsigned, found_signed, found_number, found_leb};

use frame::Frame;
use rules::{BitPlace, Leb, Order, Refusal};

// A leaf that stands at its aligned place with so many bits and says a value; or at which place it is refused, and why. The fields stand in
// the order that is quick: where a refusal's last word lies on a number's, both are stored through memory. A Stop in its place, as a Result
// would have it, took a tenth more instructions a leaf (docs/DECISIONS.md, "Leaves").
#[derive(Clone, Copy)]
pub enum Found {
    At {
        bits: u64,
        place: BitPlace,
        value: u64,
    },
    Refused {
        place: BitPlace,
        why: Refusal,
    },
}

// The exponent of the alignment of kinds 21 to 27: whole bytes.
pub const BYTE: u64 = 3;

// "For 24 it becomes the first bit of the byte at which the number became too long or too large" (02, 8): nine bytes always fit.
const TENTH_BYTE: u64 = 72;

// Kinds 16 to 20: a number of `width` bits.
pub fn find_bits(
    stream: &[u8],
    frame: Frame,
    from: BitPlace,
    last: Option<Order>,
    width: u64,
    order: Order,
    exponent: u64,
) -> Found
    requires framed { Framed stream.now frame from }
    requires width_bound { (width ≤ 64) × (exponent ≤ 6) }
    ensures { result ≡ found_bits stream.now frame from last width order (2 ^ exponent) }
{
    // "For 22 the place becomes the bound that would be crossed." (02, 8)
    let bound = frame.bound;
    let place = places::align(from, frame.start, exponent);
    if frame.bound.0 < place.0 {
        return Found::Refused {
            place: bound,
            why: Refusal::PastBound,
        };
    }
    if turns(order, last, place.0 - frame.start.0) {
        return Found::Refused {
            place: from,
            why: Refusal::OrderChanged,
        };
    }
    if frame.bound.0 < place.0 + width {
        return Found::Refused {
            place: bound,
            why: Refusal::PastBound,
        };
    }
    Found::At {
        bits: width,
        place,
        value: bits::take(stream, place, width, order),
    }
}

// "Order may differ from that of the previous kind 16 to 20 field in the packet only at a multiple of 8 from P" (Reading)
fn turns(order: Order, last: Option<Order>, offset: u64) -> bool
    ensures { result ≡ not (eqb (offset % 8) 0) && other_order order last }
{
    if offset % 8 == 0 {
        return false;
    }
    differs(order, last)
}

fn differs(order: Order, last: Option<Order>) -> bool
    ensures { result ≡ other_order order last }
{
    match last {
        None => true,
        Some(was) => match was {
            Order::Little => match order {
                Order::Little => false,
                Order::Big => true,
            },
            Order::Big => match order {
                Order::Little => true,
                Order::Big => false,
            },
        },
    }
}

// Kind 21.
pub fn find_unsigned(stream: &[u8], frame: Frame, from: BitPlace) -> Found
    requires { Framed stream.now frame from }
    ensures { result ≡ found_unsigned stream.now frame from }
{
    find_leb::<false>(stream, frame, from)
}

// Kind 22.
pub fn find_signed(stream: &[u8], frame: Frame, from: BitPlace) -> Found
    requires { Framed stream.now frame from }
    ensures { result ≡ found_signed stream.now frame from }
{
    find_leb::<true>(stream, frame, from)
}

// Either.
fn find_leb<const SIGNED: bool>(stream: &[u8], frame: Frame, from: BitPlace) -> Found
    requires { Framed stream.now frame from }
    ensures { result ≡ found_number SIGNED stream.now frame from }
{
    let bound = frame.bound;
    let place = places::align(from, frame.start, BYTE);
    if frame.bound.0 < place.0 {
        return Found::Refused {
            place: bound,
            why: Refusal::PastBound,
        };
    }
    let at = places::bytes_before(place);
    let end = places::bytes_before(frame.bound);
    if SIGNED {
        return leb_at(frame, place, leb128::signed(stream, at, end));
    }
    leb_at(frame, place, leb128::unsigned(stream, at, end))
}

// No LEB128 number has more than ten bytes, and ten lie below what a place can be.
fn leb_at(frame: Frame, place: BitPlace, answer: Leb) -> Found
    requires short { Short answer }
    requires place_bound { place.0 + 80 ≤ 2 ^ 64 }
    ensures { result ≡ found_leb frame place answer }
{
    match answer {
        Leb::Value { value, bytes } => Found::At {
            bits: places::bits_in(bytes),
            place,
            value,
        },
        Leb::Past => {
            let bound = frame.bound;
            Found::Refused {
                place: bound,
                why: Refusal::PastBound,
            }
        }
        Leb::Large => {
            let tenth = places::further(place, TENTH_BYTE);
            Found::Refused {
                place: tenth,
                why: Refusal::LebTooLarge,
            }
        }
    }
}
