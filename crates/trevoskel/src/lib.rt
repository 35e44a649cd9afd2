// The static library for hosts in C: a table's check, a stream's reading and the smallest bundle of streams, each for every input the rules'
// own answer. Nothing is kept between calls. What a caller lends, and what it must see to, is in include/trevoskel.h.
#![tactic(auto)]

ghost use Rattle.std.specs.Prelude.{◌≡◌, ◌^◌, ◌<◌, length, slice_index};
ghost use Rattle.rules.specs.Parse.{checked, checked_number};
ghost use Rattle.rules.specs.Read.{read_all, result_of, list_after};
ghost use Rattle.rules.specs.Bundle.{bundle_of, bundle_readings, bundle_answer, buffer_after, lists_after, bundled_number};
ghost use Rattle.trevoskel_words.specs.Written.{written};
ghost use Rattle.trevoskel.specs.Words.{checked_words, result_words, bundled_words};

use bundle::bundle;
use check_table::check;
use numbers::faults;
use reader::read;
use rules::{NoBundle, TableFault};
use trevoskel_words::write;

// Whether a class table is sound: 0 accepted, or the number that refuses it. The result gets the number and a byte: the table's length, or
// where the record at fault begins.
#[tactic(auto, unfolding(crate::specs::Words::checked_words, rules::specs::Parse::checked_number, rules::specs::Parse::checked_byte))]
#[unsafe(no_mangle)]
pub extern "C" fn trevoskel_check(table: &[u8], res: &mut [u64]) -> u32
    ensures number { result ≡ checked_number (checked table.now) }
    ensures res { res.new ≡ written (checked_words (checked table.now)) res.old }
{
    match check(table) {
        Ok(length) => answer([0, length.0 as u64], res),
        Err(TableFault { number, byte }) => answer([number as u64, byte.0 as u64], res),
    }
}

// Reads a stream by a table: 0 accepted, or the number that refuses it. The list gets the entries, five words each, and the result number,
// entries, place and two ids.
#[tactic(auto, unfolding(crate::specs::Words::result_words))]
#[unsafe(no_mangle)]
pub extern "C" fn trevoskel_read(
    table: &[u8],
    stream: &[u8],
    list: &mut [u64],
    res: &mut [u64],
) -> u32
    ensures number { result ≡ (result_of (read_all table.now stream.now (length list.old))).number }
    ensures list { list.new ≡ list_after (read_all table.now stream.now (length list.old)) list.old }
    ensures res { res.new
        ≡ written (result_words (result_of (read_all table.now stream.now (length list.old)))) res.old }
{
    let r = read(table, stream, list);
    let words = [
        r.number as u64,
        r.entries as u64,
        r.place,
        r.first,
        r.second,
    ];
    answer(words, res)
}

// Cuts a table to what some streams need: 0 written, or the number that refuses it. The streams stand one behind another, as long as
// `lengths` says, and so do their lists, by `rooms`. The lists get the readings' entries, the buffer the table, and the result number, length
// and id.
#[tactic(auto, unfolding(crate::specs::Words::bundled_words, rules::specs::Bundle::bundled_number, rules::specs::Bundle::bundled_length, rules::specs::Bundle::bundled_first))]
#[unsafe(no_mangle)]
pub extern "C" fn trevoskel_bundle(
    table: &[u8],
    streams: &[u8],
    lengths: &[u64],
    rooms: &[u64],
    list: &mut [u64],
    out: &mut [u8],
    res: &mut [u64],
) -> u32
    ensures number { result ≡ bundled_number
        (bundle_answer table.now streams.now lengths.now rooms.now list.old
        (length out.old)) }
    ensures list { list.new ≡ lists_after
        (bundle_answer table.now streams.now lengths.now rooms.now list.old
        (length out.old))
        (bundle_readings table.now streams.now lengths.now rooms.now list.old)
        rooms.now list.old }
    ensures out { out.new ≡ buffer_after
        (bundle_answer table.now streams.now lengths.now rooms.now list.old
        (length out.old))
        (bundle_of table.now
        (bundle_readings table.now streams.now lengths.now rooms.now list.old))
        out.old }
    ensures res { res.new ≡ written
        (bundled_words (bundle_answer table.now streams.now lengths.now rooms.now list.old
        (length out.old)))
        res.old }
{
    match bundle(table, streams, lengths, rooms, list, out) {
        Ok(length) => answer([0, length.0 as u64, 0], res),
        Err(NoBundle::Table(TableFault { number, byte })) => {
            answer(
                [faults::TABLE_REFUSED as u64, byte.0 as u64, number as u64],
                res,
            )
        }
        Err(NoBundle::TooManyStreams) => answer([faults::TOO_MANY_STREAMS as u64, 0, 0], res),
        Err(NoBundle::ShortBuffer(length)) => answer(
            [faults::SHORT_BUFFER as u64, length.0 as u64, 0],
            res,
        ),
    }
}

// Words as they come, of which the first is the number.
fn answer<const N: usize>(words: [u64; N], res: &mut [u64]) -> u32
    requires some { 0 < N }
    requires fits { slice_index words 0 < 2 ^ 32 }
    ensures number { result ≡ slice_index words.entry 0 }
    ensures res { res.new ≡ written words.entry res.old }
{
    write(&words, res);
    words[0] as u32
}
