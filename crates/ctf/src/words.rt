// The papers' numbers in words.
use rules::Report;
use std::fmt;
use std::fmt::{Display, Formatter};

// What is wrong with a table, by the number that refuses it ("Refusing a table").
pub(crate) fn fault(number: u64) -> &'static str {
    match number {
        1 => "the table is empty, or has more than 65,536 bytes",
        2 => "this kind of record is unknown",
        3 => "the table ends inside this record, or before one that was announced",
        4 => "the first record is no preamble, or this is a second one",
        5 => "the version is not 2",
        6 => "this trace class stands after a stream class, or is a second one",
        7 => "this clock id, stream class id or pair of event ids was used before",
        8 => "the clock or stream class that is named here does not stand earlier",
        9 => "this kind is not allowed here, or this root is foreign, repeated or out of turn",
        10 => "a number is outside its range",
        11 =>
            "a slot is named that is not allowed here, or is set both inside an array element and outside it",
        12 => "a role is given that is not allowed here",
        13 => "a range has low above high, signs are mixed, or the ranges of two options meet",
        14 => "this class stands at depth 9",
        15 => "there are more than 512 clock, stream and event classes",
        _ => NO_NUMBER,
    }
}

const NO_NUMBER: &str = "no number of the paper";

// Why a reading was refused, by its number ("Refusing a stream"), with the ids that it names. Of 22 the place is the bound, not the field's.
#[derive(Clone, Copy)]
pub(crate) struct Why(pub(crate) Report);

impl Display for Why {
    fn fmt<W: fmt::Write>(&self, f: &mut Formatter<W>) -> fmt::Result {
        let r = self.0;
        match r.number {
            20 => write!(f, "the table is refused by {}: {}", r.first, fault(r.first)),
            22 => write!(
                f,
                "the field behind the last entry crosses the bound at bit {}",
                r.place
            ),
            33 => write!(f, "the table has no stream class {}", r.first),
            37 => write!(
                f,
                "the table has no event class {} in stream class {}",
                r.second, r.first
            ),
            number => f.write_str(refusal(number)),
        }
    }
}

// The same of a number that names no id.
fn refusal(number: u8) -> &'static str {
    match number {
        21 => "the stream is empty, or has more than 536,870,911 bytes",
        23 => "the byte order changes off a byte boundary",
        24 => "a LEB128 number is too long or too large at its tenth byte",
        25 => "there is no zero byte before the bound",
        26 => "a slot is read that no field has set, or only one in an array element that is over",
        27 => "a slot is read that is of the wrong sort",
        28 => "a length is above 65,535",
        29 => "the selector is in no option",
        30 => "the magic number is wrong",
        31 => "the UUID is wrong",
        32 => "the stream class is not the first packet's",
        34 => "the packet's lengths contradict each other, the stream or the context",
        35 => "the packet's start clock is above its end clock",
        36 => "the clock needs more than 64 bits",
        38 => "the event took no bits",
        39 => "the clock is below the previous event's",
        40 => "the list is full",
        41 => "the string behind the last entry is not UTF-8 text",
        _ => NO_NUMBER,
    }
}

// The word of an entry's kind.
pub(crate) fn kind_word(kind: u64) -> &'static str {
    match kind {
        1 => "packet",
        2 => "stream-class",
        3 => "lengths",
        4 => "event",
        5 => "event-class",
        6 => "clock",
        7 => "packet-end",
        16 => "bit-array",
        17 => "boolean",
        18 => "unsigned",
        19 => "signed",
        20 => "float",
        21 => "leb128-unsigned",
        22 => "leb128-signed",
        23 => "string",
        24 => "static-string",
        25 => "static-blob",
        26 => "dynamic-string",
        27 => "dynamic-blob",
        28 => "structure",
        29 => "static-array",
        30 => "dynamic-array",
        31 => "optional",
        32 => "variant",
        _ => "unknown",
    }
}
