// What a reading answers: "Result: number (0 accepted), entries, place, two ids."
#![tactic(auto)]

ghost use Rattle.std.specs.Prelude.{◌≡◌};
ghost use Rattle.reader_result.specs.Answer.{answer_of, refused_with, result_with};

use numbers::limits::WORDS_PER_ENTRY;
use outcome::Ran;
use rules::{BitPlace, Refusal, Report, Stop};

// The answer of what was read, with the words that it listed.
pub fn answer(ran: Ran) -> Report
    ensures { result ≡ answer_of ran.went ran.used ran.state }
{
    match ran.went {
        Ok(()) => Report {
            number: 0,
            entries: ran.used / WORDS_PER_ENTRY,
            place: ran.state.place.0,
            first: 0,
            second: 0,
        },
        Err(stop) => refused(stop, ran.used / WORDS_PER_ENTRY),
    }
}

// The answer of a refusal behind so many entries, in the paper's numbers.
pub fn refused(stop: Stop, entries: usize) -> Report
    ensures { result ≡ refused_with stop entries }
{
    let place = stop.place;
    match stop.why {
        Refusal::StreamSize => with(21, entries, place, 0, 0),
        Refusal::PastBound => with(22, entries, place, 0, 0),
        Refusal::OrderChanged => with(23, entries, place, 0, 0),
        Refusal::LebTooLarge => with(24, entries, place, 0, 0),
        Refusal::NoZeroByte => with(25, entries, place, 0, 0),
        Refusal::SlotUnset => with(26, entries, place, 0, 0),
        Refusal::SlotOfWrongSort => with(27, entries, place, 0, 0),
        Refusal::LengthTooLarge => with(28, entries, place, 0, 0),
        Refusal::SelectorInNoOption => with(29, entries, place, 0, 0),
        Refusal::WrongMagic => with(30, entries, place, 0, 0),
        Refusal::WrongUuid => with(31, entries, place, 0, 0),
        Refusal::StreamClassChanged => with(32, entries, place, 0, 0),
        Refusal::StreamClassUnknown(id) => with(33, entries, place, id, 0),
        Refusal::LengthsContradict => with(34, entries, place, 0, 0),
        Refusal::ClocksContradict => with(35, entries, place, 0, 0),
        Refusal::ClockTooLarge => with(36, entries, place, 0, 0),
        Refusal::EventClassUnknown(id, event) => with(37, entries, place, id, event),
        Refusal::EventTookNoBits => with(38, entries, place, 0, 0),
        Refusal::ClockWentBack => with(39, entries, place, 0, 0),
        Refusal::ListFull => with(40, entries, place, 0, 0),
        Refusal::NotText => with(41, entries, place, 0, 0),
    }
}

fn with(number: u8, entries: usize, place: BitPlace, first: u64, second: u64) -> Report
    ensures { result ≡ result_with number entries place first second }
{
    Report {
        number,
        entries,
        place: place.0,
        first,
        second,
    }
}
