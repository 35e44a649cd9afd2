// The program. `ctf check TABLE` says in one line whether a class table is sound: `accepted: N bytes`, or `refused N at byte B:` and what
// is wrong, in words. `ctf read TABLE STREAM` prints a line an entry, then `accepted: N entries, B bits`, or `refused N at bit P:` and why,
// in words, `; N entries`. `ctf cut TABLE STREAM...` writes the table's bytes without the classes that no stream needs, and says on standard
// error what it kept, or why it refuses. What cannot be opened or read, or is too long, gets a line on standard error.
//
// In lines: what is printed. In words: the papers' numbers in words. In cut: the third command.
#![tactic(auto)]

ghost use Rattle.std.specs.Prelude.{◌≡◌, ◌*◌, ◌≤◌, length, IfOk, IfSome};
ghost use Rattle.rules.specs.Limits.{words_per_entry};

use lines::{say_checked, say_entries, say_result};
use numbers::limits::WORDS_PER_ENTRY;
use std::env::{Env, FillError};
use std::fs::File;
use std::io::{Error, Read, Write};
use std::{io, str};

mod cut;
mod lines;
mod words;

// The argument that names the table, and the one that names the stream, or the first of them.
const TABLE: usize = 2;

const STREAM: usize = 3;

// One byte more than a table may have, or than there is room for of a stream: so what is longer is seen to be.
const FILE_ROOM: usize = 65537;

// The bytes of the longest stream that there is room for.
const STREAM_ROOM: usize = 65536;

// Room for 131,072 entries.
const LIST_ROOM: usize = 131_072 * WORDS_PER_ENTRY;

// No path has more bytes.
const PATH_ROOM: usize = 4096;

// The longest of the system's words for an error have 49 bytes.
const ERROR_ROOM: usize = 128;

// The system's numbers of errors: std makes an error of no other.
const EINVAL: i32 = 22;

const ENAMETOOLONG: i32 = 36;

const EILSEQ: i32 = 84;

fn main(rt: HostRuntime) {
    let mut command = [0u8; 16];
    let got = rt.arg(1, &mut command).unwrap_or(0);
    match (&command[..got], arg_count(&rt)) {
        (b"check", 3) => check_named(&rt),
        (b"read", 4) => read_named(&rt),
        (b"cut", count) if STREAM < count => cut_named(&rt, count - STREAM),
        _ => {
            let _ = eprintln!(rt;
                "usage: ctf check TABLE\n       ctf read TABLE STREAM\n       ctf cut TABLE STREAM..."
            );
        }
    }
}

// How many words there are, the program's own among them.
fn arg_count(rt: &impl Env) -> usize {
    (0..usize::MAX)
        .position(|i| matches!(rt.arg(i, &mut []), Err(FillError::NotPresent)))
        .unwrap_or(usize::MAX)
}

fn check_named(rt: &HostRuntime) {
    let mut table = file_room();
    if let Some(table) = load(rt, TABLE, &mut table) {
        say_checked(rt, check_table::check(table));
    }
}

// By itself, as cutting is: the lists of both in one frame would be more than the usual stack.
#[inline(never)]
fn read_named(rt: &HostRuntime) {
    let mut table = file_room();
    let Some(table) = load(rt, TABLE, &mut table) else {
        return;
    };
    let mut stream = file_room();
    let Some(stream) = load(rt, STREAM, &mut stream) else {
        return;
    };
    if STREAM_ROOM < stream.len() {
        let _ = eprintln!(rt; "the stream has more than the 65,536 bytes that there is room for");
        return;
    }
    let mut list = list_room();
    say_reading(rt, table, stream, &mut list);
}

fn say_reading(rt: &impl Print, table: &[u8], stream: &[u8], list: &mut [u64]) {
    let r = reader::read(table, stream, list);
    say_entries(rt, list, r.entries);
    say_result(rt, r);
}

#[inline(never)]
fn cut_named(rt: &HostRuntime, streams: usize) {
    let mut table = file_room();
    let Some(table) = load(rt, TABLE, &mut table) else {
        return;
    };
    let mut list = list_room();
    cut::cut_loaded(rt, table, streams, &mut list);
}

// So many cells, told by a law: the proof of a caller that made them itself would walk over each.
fn cells<T: Copy, const N: usize>(cell: T) -> [T; N]
    ensures { length result ≡ N }
{
    [cell; N]
}

fn file_room() -> [u8; FILE_ROOM]
    ensures { 65537 ≡ length result }
{
    cells(0)
}

fn list_room() -> [u64; LIST_ROOM]
    ensures { 131072 * words_per_entry ≡ length result }
{
    cells(0)
}

// The file that an argument names, in the room. Where that fails, it has said so.
fn load<'a>(rt: &HostRuntime, argument: usize, room: &'a mut [u8]) -> Option<&'a [u8]>
    ensures { IfSome result (λ bytes. length bytes.now ≤ length room.old) }
{
    let mut path = [0u8; PATH_ROOM];
    let got = match rt.arg(argument, &mut path) {
        Ok(got) => got,
        Err(refused) => {
            fail(rt, b"the file's name", name_error(refused));
            return None;
        }
    };
    let name = &path[..got];
    match read_file(rt, name, room) {
        Ok(bytes) => Some(&room[..bytes]),
        Err(error) => {
            fail(rt, name, error);
            None
        }
    }
}

// Why there is no name, as the system numbers it: it is too long, or there is no such argument.
fn name_error(refused: FillError) -> Error {
    match refused {
        FillError::TooLong => Error::from_raw_os_error(ENAMETOOLONG),
        FillError::NotPresent => Error::from_raw_os_error(EINVAL),
    }
}

// Reads until the room is full or the file ends: how many bytes. A read that fails is no end: a file that is cut short would get a false
// verdict.
fn read_file(rt: &HostRuntime, name: &[u8], room: &mut [u8]) -> io::Result<usize>
    ensures { IfOk result (λ n. n ≤ length room.new) }
{
    let mut file = open(rt, name)?;
    let mut done = 0;
    // by hand: read_exact does not say how many bytes there were
    while done < room.len() {
        let more = file.read(&mut room[done..])?;
        if more == 0 {
            break;
        }
        done += more;
    }
    Ok(done)
}

// Files have names in UTF-8 for std: another gets the system's error for such bytes.
fn open(rt: &HostRuntime, name: &[u8]) -> io::Result<File> {
    match str::from_utf8(name) {
        Ok(text) => File::open(rt, text),
        Err(_) => Err(Error::from_raw_os_error(EILSEQ)),
    }
}

// A line on standard error: what failed, and why, in the system's words.
fn fail(rt: &HostRuntime, what: &[u8], error: Error) {
    let mut text = [0u8; ERROR_ROOM];
    let _ = write!(&mut text[..], "{error}");
    let stderr = rt.stderr();
    for part in [what, b": ", without_number(&text), b"\n"] {
        let _ = stderr.write_all(part);
    }
}

// An error's text up to its number, which std writes behind the system's words; or else up to the zeros behind it.
fn without_number(text: &[u8]) -> &[u8] {
    let words = text.split(|byte| *byte == 0).next().unwrap_or(text);
    match str::from_utf8(words)
        .ok()
        .and_then(|words| words.split_once(" (os error "))
    {
        Some((before, _)) => before.as_bytes(),
        None => words,
    }
}
