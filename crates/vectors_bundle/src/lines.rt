// What is printed.
use crate::input::End;
use numbers::faults;
use rules::{ByteLength, NoBundle, Report};
use std::fmt;
use std::fmt::{Display, Formatter};

// The answer in numbers.
pub(crate) fn say_bundled(rt: &impl Print, bundled: Result<ByteLength, NoBundle>) {
    let (number, length, id) = match bundled {
        Ok(length) => (0, length.0, 0),
        Err(NoBundle::Table(fault)) => (faults::TABLE_REFUSED, fault.byte.0, fault.number),
        Err(NoBundle::TooManyStreams) => (faults::TOO_MANY_STREAMS, 0, 0),
        Err(NoBundle::ShortBuffer(length)) => (faults::SHORT_BUFFER, length.0, 0),
    };
    let _ = println!(rt; "{number} {length} {id}");
}

pub(crate) fn say_result(rt: &impl Print, r: Report) {
    let _ = println!(rt;
        "{} {} {} {} {}",
        r.number, r.entries, r.place, r.first, r.second
    );
}

pub(crate) fn say_words(rt: &impl Print, words: &[u64]) {
    for word in words {
        let _ = print!(rt; "{word} ");
    }
    let _ = println!(rt);
}

// Two digits a byte.
pub(crate) fn say_bytes(rt: &impl Print, bytes: &[u8]) {
    let _ = println!(rt; "{}", Hex(bytes));
}

#[derive(Clone, Copy)]
struct Hex<'a>(&'a [u8]);

impl<'a> Display for Hex<'a> {
    fn fmt<W: fmt::Write>(&self, f: &mut Formatter<W>) -> fmt::Result {
        for byte in self.0 {
            write!(f, "{byte:02x}")?;
        }
        Ok(())
    }
}

pub(crate) fn say_end(rt: &impl Print, end: End) {
    let _ = match end {
        End::OfInput => Ok(()),
        End::CutShort => println!(rt; "the case is cut short"),
        End::TooLong => println!(rt; "the case is too long"),
    };
}
