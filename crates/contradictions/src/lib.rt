// What a stream says of itself and cannot be, told from numbers alone: its stream class (32), a packet's lengths (34) and clocks (35), an
// event's clock (39); and which lengths hold where one is missing. In the order of their numbers.
#![tactic(auto)]

ghost use Rattle.std.specs.Prelude.{◌≡◌, ◌&&◌, ltb};
ghost use Rattle.rules.specs.Packet.{differs as differsFrom, above as aboveEnding, or_else};
ghost use Rattle.contradictions.specs.Lengths.{contradicts};

use rules::BitPlace;

// Whether a stream class id is another than the first packet's (32).
pub fn differs(id: u64, first: Option<u64>) -> bool
    ensures { result ≡ differsFrom id first }
{
    match first {
        None => false, // it is the first
        Some(was) => id != was,
    }
}

// "If one length is missing it equals the other; if both are, both run to the stream's end."
pub fn or_else(one: Option<u64>, other: Option<u64>, rest: u64) -> u64
    ensures { result ≡ or_else one other rest }
{
    match one {
        Some(x) => x,
        None => match other {
            Some(y) => y,
            None => rest,
        },
    }
}

// "34: total not a multiple of 8, content above total, total past the stream, content ending before the context does"
pub fn contradict(total: u64, content: u64, start: BitPlace, place: BitPlace, end: BitPlace) -> bool
    ensures { result ≡ contradicts total content start place end.0 }
{
    if total % 8 != 0 {
        return true;
    }
    let content_above = total < content;
    if content_above {
        return true;
    }
    // never, where a packet starts in the stream
    if end.0 < start.0 {
        return true;
    }
    if end.0 - start.0 < total {
        return true;
    }
    start.0 + content < place.0
}

// "35: start clock above a stated end clock"
pub fn above(clock: u64, ending: Option<u64>) -> bool
    ensures { result ≡ aboveEnding clock ending }
{
    match ending {
        None => false, // no end is stated
        Some(end) => end < clock,
    }
}

// "The event's clock after its header may not be below the previous event's in the stream (39), if there is a clock."
pub fn went_back(timed: bool, clock: u64, last: u64) -> bool
    ensures { result ≡ (timed && ltb clock last) }
{
    timed && clock < last
}
