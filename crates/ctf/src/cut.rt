// `ctf cut TABLE STREAM...`: the table without the stream and event classes that no stream's list names, as bytes on standard output, and one
// line on standard error: `kept N of N event classes, N of N stream classes: N of N bytes`, or `refused N` and why.
ghost use Rattle.std.specs.Prelude.{◌≡◌, ◌≤◌, length, IfSome};
ghost use Rattle.std.specs.Iterator.{at_most};

use crate::words::fault;
use crate::{STREAM, STREAM_ROOM, cells, fail, file_room, load};
use numbers::kinds;
use numbers::limits::{BUNDLE_LIMIT, WORDS_PER_ENTRY};
use rules::NoBundle;
use std::fmt;
use std::fmt::{Display, Formatter};
use table_records::bodies::mark_of;

// Each stream is read into room for one byte more than it may have: so what is longer is seen to be.
const STREAM_AND_ONE: usize = STREAM_ROOM + 1;

const ALL_STREAMS: usize = BUNDLE_LIMIT * STREAM_ROOM + 1;

// The number of a reading whose list had no room left: a result has the paper's number, and no case of an enum.
const LIST_FULL: u8 = 40;

// One more than there may be.
const LENGTHS: usize = BUNDLE_LIMIT + 1;

// Cuts the table to the streams that the arguments name, so many.
pub(crate) fn cut_loaded(rt: &HostRuntime, table: &[u8], count: usize, list: &mut [u64]) {
    let mut streams: [u8; ALL_STREAMS] = cells(0);
    let mut lengths = [0u64; LENGTHS];
    let mut rooms = [0u64; LENGTHS];
    if BUNDLE_LIMIT < count {
        // no stream is looked at: 20, or else 44
        cut_streams(rt, table, &[], &lengths, &rooms, list);
        return;
    }
    let lengths = &mut lengths[..count];
    let rooms = &mut rooms[..count];
    if load_streams(rt, table, &mut streams, lengths, rooms, list).is_some() {
        cut_streams(rt, table, &streams, lengths, rooms, list);
    }
}

// Puts the streams one behind another, and gives each list as many words as its reading takes. Where that fails, it has said so.
// Lengths and rooms stand apart, as a caller in C lends them.
fn load_streams(
    rt: &HostRuntime,
    table: &[u8],
    streams: &mut [u8],
    lengths: &mut [u64],
    rooms: &mut [u64],
    list: &mut [u64],
) -> Option<()>
    requires few { length lengths.old ≤ 16 }
    requires as_many { length rooms.old ≡ length lengths.old }
    requires room { 1048577 ≤ length streams.old }
{
    let mut at = 0;
    let mut used = 0;
    for i in 0..lengths.len() {
        let one = load_stream(
            rt,
            table,
            i,
            &mut streams[at..at + STREAM_AND_ONE],
            &mut list[used..],
        )?;
        lengths[i] = one.bytes as u64;
        rooms[i] = one.words as u64;
        at += one.bytes;
        used += one.words;
    }
    Some(())
}

// What a stream takes: bytes, and words of a list.
#[derive(Clone, Copy)]
struct Taken {
    bytes: usize,
    words: usize,
}

fn load_stream(
    rt: &HostRuntime,
    table: &[u8],
    i: usize,
    room: &mut [u8],
    list: &mut [u64],
) -> Option<Taken>
    requires { i ≤ 16 }
    ensures bytes { IfSome result (λ t. t.bytes ≤ 65536) }
    ensures words { IfSome result (λ t. t.words ≤ length list.new) }
{
    let stream = load(rt, STREAM + i, room)?;
    if STREAM_ROOM < stream.len() {
        let _ = eprintln!(rt;
            "stream {} has more than the 65,536 bytes that there is room for",
            i + 1
        );
        return None;
    }
    let r = reader::read(table, stream, list);
    if r.number == LIST_FULL {
        // the list's end would name no class, and the table would lose it
        let _ = eprintln!(rt;
            "stream {} has more entries than there is room for: all streams together have 131,072",
            i + 1
        );
        return None;
    }
    // no list has more entries than it has room for: this never comes
    if list.len() / WORDS_PER_ENTRY < r.entries {
        return None;
    }
    Some(Taken {
        bytes: stream.len(),
        words: r.entries * WORDS_PER_ENTRY,
    })
}

fn cut_streams(
    rt: &HostRuntime,
    table: &[u8],
    streams: &[u8],
    lengths: &[u64],
    rooms: &[u64],
    list: &mut [u64],
) {
    let mut short = file_room();
    match bundle::bundle(table, streams, lengths, rooms, list, &mut short) {
        Ok(length) => {
            if let Some(short) = short.get(..length.0) {
                write_cut(rt, table, short);
            }
        }
        Err(NoBundle::Table(found)) => {
            let _ = eprintln!(rt;
                "refused 20 at byte {}: the table is refused by {}: {}",
                found.byte.0,
                found.number,
                fault(found.number as u64)
            );
        }
        Err(NoBundle::TooManyStreams) => {
            let _ = eprintln!(rt; "refused 44: there are more than sixteen streams");
        }
        // the room is longer than any table: this never comes
        Err(NoBundle::ShortBuffer(_)) => {
            let _ = eprintln!(rt; "refused 45: the table has no room");
        }
    }
}

// The line comes last: where the bytes could not be written, it is another.
fn write_cut(rt: &HostRuntime, table: &[u8], short: &[u8]) {
    match rt.write_all(short) {
        Ok(()) => tell_kept(rt, table, short),
        Err(error) => fail(rt, "the table could not be written".as_bytes(), error),
    }
}

fn tell_kept(rt: &impl Eprint, table: &[u8], short: &[u8]) {
    let _ = eprintln!(rt;
        "kept {} of {} event classes, {} of {} stream classes: {} of {} bytes",
        Grouped(records(short, kinds::EVENT_CLASS)),
        Grouped(records(table, kinds::EVENT_CLASS)),
        Grouped(records(short, kinds::STREAM_CLASS)),
        Grouped(records(table, kinds::STREAM_CLASS)),
        Grouped(short.len()),
        Grouped(table.len())
    );
}

// A number of up to six digits, with a comma between the third and the fourth from its end.
#[derive(Clone, Copy)]
struct Grouped(usize);

impl Display for Grouped {
    fn fmt<W: fmt::Write>(&self, f: &mut Formatter<W>) -> fmt::Result {
        let n = self.0;
        if n < 1000 {
            write!(f, "{n}")
        } else {
            write!(f, "{},{:03}", n / 1000, n % 1000)
        }
    }
}

// How many records of a kind an accepted table has.
fn records(table: &[u8], kind: u8) -> usize {
    Kinds(table).filter(|found| *found == kind).count()
}

// The kinds of an accepted table's records, in their order.
#[derive(Clone, Copy)]
struct Kinds<'a>(&'a [u8]);

impl<'a> Iterator for Kinds<'a> {
    type Item = u8;

    ghost remaining = { λ s. at_most (length s.0.now) };

    fn next(&mut self) -> Option<u8> {
        let (kind, behind) = self.0.split_first()?;
        self.0 = behind.get(mark_of(*kind) as usize..).unwrap_or(&[]);
        Some(*kind)
    }
}
