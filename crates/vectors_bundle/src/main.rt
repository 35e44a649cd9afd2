// Reads a file of bundle cases on standard input to its end, and prints the answers to each: the line `NUMBER LENGTH ID`, the buffer
// afterwards in hexadecimal, the line `NUMBER ENTRIES PLACE ID ID` of each stream that was read, and an empty line. A case is a head of
// three numbers of 32 bits, little-endian (the table's bytes, the streams, the buffer's bytes), two numbers a stream (its bytes, its list's
// words), then the table and the streams, one behind another. The buffer holds EE before.
//
// Run with a word, it takes and shows all that the function does: the head has three numbers more (how many rooms are said, the bytes of
// all streams, the words of all lists), the two numbers stand for each length or room, and instead of the readings all words of the lists
// stand in one line. Before, these words count down from 2 ^ 64 - 1.
//
// In input: the numbers and bytes of a case. In lines: what is printed.
#![tactic(auto)]

ghost use Rattle.std.specs.Prelude.{◌≡◌, length};

use input::{End, Head, fill, read_head, read_parts};
use lines::{say_bundled, say_bytes, say_end, say_result, say_words};
use rules::NoBundle;
use std::env::{Env, FillError};

mod input;
mod lines;

// What each byte of the buffer holds before.
const HELD: u8 = 0xEE;

// One byte more than a table may have.
const TABLE_ROOM: usize = 65537;

// The longest streams of the shared cases.
const STREAMS_ROOM: usize = 65536;

// The longest lists of the shared cases.
const LIST_ROOM: usize = 8000;

// The lengths and the rooms that a case may say.
const MOST_PARTS: usize = 32;

// What a table is cut to: streams one behind another, and as many lists; lengths and rooms apart, as a caller in C lends them.
#[derive(Clone, Copy)]
struct Streams<'a> {
    bytes: &'a [u8],
    lengths: &'a [u64],
    rooms: &'a [u64],
}

// Nothing says that the input ends, and a loop has to: so it has a bound that no run uses up.
fn main(rt: HostRuntime) {
    let whole = has_word(&rt);
    for _ in 0..u64::MAX {
        if let Err(end) = answer_case(&rt, whole) {
            say_end(&rt, end);
            return;
        }
    }
}

// Whether the program was run with a word.
fn has_word(rt: &impl Env) -> bool {
    !matches!(rt.arg(1, &mut []), Err(FillError::NotPresent))
}

// Reads a case and prints its answers.
fn answer_case(rt: &HostRuntime, whole: bool) -> Result<(), End> {
    let head = read_head(rt, whole)?;
    let lists = head.whole.map_or(head.streams, |said| said.lists);
    let mut lengths = [0u64; MOST_PARTS];
    let mut rooms = [0u64; MOST_PARTS];
    read_parts(rt, head.streams.max(lists), &mut lengths, &mut rooms);
    let lengths = lengths.get(..head.streams).ok_or(End::TooLong)?;
    let rooms = rooms.get(..lists).ok_or(End::TooLong)?;
    answer_parts(rt, head, lengths, rooms)
}

// Makes room for what is lent, and lends as much of it as the case says: where it does not say all bytes and all words, their sums.
fn answer_parts(rt: &HostRuntime, head: Head, lengths: &[u64], rooms: &[u64]) -> Result<(), End> {
    let all_bytes = head.whole.map_or(sum(lengths), |said| said.bytes);
    let all_words = head.whole.map_or(sum(rooms), |said| said.words);
    let mut table = table_room();
    let mut bytes = streams_room();
    let mut list = list_room();
    let mut buffer = [HELD; TABLE_ROOM];
    let table = fill(rt, &mut table, head.table)?;
    let streams = Streams {
        bytes: fill(rt, &mut bytes, all_bytes)?,
        lengths,
        rooms,
    };
    let list = list.get_mut(..all_words).ok_or(End::TooLong)?;
    let buffer = buffer.get_mut(..head.buffer).ok_or(End::TooLong)?;
    answer(rt, table, streams, list, buffer, head.whole.is_some());
    Ok(())
}

fn table_room() -> [u8; TABLE_ROOM]
    ensures { 65537 ≡ length result }
{
    [0; TABLE_ROOM]
}

fn streams_room() -> [u8; STREAMS_ROOM]
    ensures { 65536 ≡ length result }
{
    [0; STREAMS_ROOM]
}

fn list_room() -> [u64; LIST_ROOM]
    ensures { 8000 ≡ length result }
{
    [0; LIST_ROOM]
}

// Each of them has 32 bits: the sum does not wrap.
fn sum(parts: &[u64]) -> usize {
    parts
        .iter()
        .fold(0, |all: u64, part| all.wrapping_add(*part)) as usize
}

fn answer(
    rt: &impl Print,
    table: &[u8],
    streams: Streams<'_>,
    list: &mut [u64],
    buffer: &mut [u8],
    whole: bool,
) {
    count_down(list);
    let bundled = bundle::bundle(
        table,
        streams.bytes,
        streams.lengths,
        streams.rooms,
        list,
        buffer,
    );
    say_bundled(rt, bundled);
    say_bytes(rt, buffer);
    if whole {
        say_words(rt, list);
    } else if matches!(bundled, Ok(_) | Err(NoBundle::ShortBuffer(_))) {
        say_readings(rt, table, streams, list);
    }
    let _ = println!(rt);
}

// A line of each stream's reading by itself, in the words of the list.
fn say_readings(rt: &impl Print, table: &[u8], streams: Streams<'_>, list: &mut [u64]) {
    let mut rest = streams.bytes;
    for (length, words) in streams.lengths.iter().zip(streams.rooms) {
        let Some((stream, behind)) = rest.split_at_checked(*length as usize) else {
            return;
        };
        let Some(part) = list.get_mut(..*words as usize) else {
            return;
        };
        say_result(rt, reader::read(table, stream, part));
        rest = behind;
    }
}

fn count_down(list: &mut [u64]) {
    for (i, word) in list.iter_mut().enumerate() {
        *word = u64::MAX - i as u64;
    }
}
