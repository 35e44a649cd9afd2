// What is printed: a line an entry, and the verdict's line.
use crate::words::{Why, fault, kind_word};
use numbers::limits::WORDS_PER_ENTRY;
use numbers::{entries, faults};
use rules::{ByteLength, Report, TableFault};

pub(crate) fn say_checked(rt: &impl Print, checked: Result<ByteLength, TableFault>) {
    let _ = match checked {
        Ok(length) => println!(rt; "accepted: {} bytes", length.0),
        Err(found) => println!(rt;
            "refused {} at byte {}: {}",
            found.number,
            found.byte.0,
            fault(found.number as u64)
        ),
    };
}

// A line for each of the entries that the list begins with.
pub(crate) fn say_entries(rt: &impl Print, list: &[u64], count: usize) {
    let (entries, _) = list.as_chunks::<WORDS_PER_ENTRY>();
    for entry in entries.iter().take(count) {
        say_entry(rt, *entry);
    }
}

// In columns: the kind's word, place, bits, value, the record's number. An integer's value by its sign, any other as it is.
fn say_entry(rt: &impl Print, [kind, place, bits, value, number]: [u64; WORDS_PER_ENTRY]) {
    let word = kind_word(kind);
    let shown = if matches!(kind, entries::SIGNED | entries::LEB128_SIGNED) {
        i128::from(value.cast_signed())
    } else {
        i128::from(value)
    };
    let _ = println!(rt; "{word:<16}{place:>10}{bits:>10}{shown:>22}{number:>6}");
}

// The verdict in words. A table's refusal has a byte for its place.
pub(crate) fn say_result(rt: &impl Print, r: Report) {
    let Report {
        number,
        entries,
        place,
        ..
    } = r;
    let _ = if number == 0 {
        println!(rt; "accepted: {entries} entries, {place} bits")
    } else {
        let unit = if number == faults::TABLE_REFUSED {
            "byte"
        } else {
            "bit"
        };
        println!(rt;
            "refused {number} at {unit} {place}: {}; {entries} entries",
            Why(r)
        )
    };
}
