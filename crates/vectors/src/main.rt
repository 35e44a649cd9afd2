// Reads a case file on standard input to its end, and prints the answers to each: the line `NUMBER BYTE` of the table's check, the
// line `NUMBER ENTRIES PLACE ID ID` of the reading, a line `KIND PLACE BITS VALUE` an entry, and an empty line. A case is a head of three
// numbers of 32 bits, little-endian (the table's bytes, the stream's bytes, the list's words), then the table and the stream.
#![tactic(auto)]

ghost use Rattle.std.specs.Prelude.{◌≡◌, length};

use numbers::limits::WORDS_PER_ENTRY;
use rules::{ByteLength, Report, TableFault};
use std::io::Read;

// One byte more than a table may have.
const TABLE_ROOM: usize = 65537;

// The longest stream of the shared cases.
const STREAM_ROOM: usize = 65536;

// The longest list of the shared cases.
const LIST_ROOM: usize = 8000;

// Why no further case is answered.
#[derive(Clone, Copy)]
enum End {
    OfInput,
    CutShort,
    TooLong,
}

// Nothing says that the input ends, and a loop has to: so it has a bound that no run uses up.
fn main(rt: HostRuntime) {
    for _ in 0..u64::MAX {
        if let Err(end) = answer_case(&rt) {
            say_end(&rt, end);
            return;
        }
    }
}

fn say_end(rt: &impl Print, end: End) {
    let _ = match end {
        End::OfInput => Ok(()),
        End::CutShort => println!(rt; "the case is cut short"),
        End::TooLong => println!(rt; "the case is too long"),
    };
}

// Reads a case and prints its answers.
fn answer_case(rt: &HostRuntime) -> Result<(), End> {
    let mut head = [0u8; 4];
    if rt.stdin().read(&mut head[..1]).unwrap_or(0) == 0 {
        return Err(End::OfInput);
    }
    read(rt, &mut head[1..])?;
    let table_bytes = u32::from_le_bytes(head) as usize;
    let stream_bytes = number(rt)?;
    let words = number(rt)?;
    let mut table = table_room();
    let mut stream = stream_room();
    let mut list = list_room();
    let table = fill(rt, &mut table, table_bytes)?;
    let stream = fill(rt, &mut stream, stream_bytes)?;
    let list = list.get_mut(..words).ok_or(End::TooLong)?;
    say_checked(rt, check_table::check(table));
    let r = reader::read(table, stream, list);
    say_reading(rt, r, list);
    Ok(())
}

fn table_room() -> [u8; TABLE_ROOM]
    ensures { 65537 ≡ length result }
{
    [0; TABLE_ROOM]
}

fn stream_room() -> [u8; STREAM_ROOM]
    ensures { 65536 ≡ length result }
{
    [0; STREAM_ROOM]
}

fn list_room() -> [u64; LIST_ROOM]
    ensures { 8000 ≡ length result }
{
    [0; LIST_ROOM]
}

// Four bytes, "little-endian".
fn number(rt: &HostRuntime) -> Result<usize, End> {
    let mut bytes = [0u8; 4];
    read(rt, &mut bytes)?;
    Ok(u32::from_le_bytes(bytes) as usize)
}

// So many bytes of the input, in a room that may be too small for them.
fn fill<'a>(rt: &HostRuntime, room: &'a mut [u8], length: usize) -> Result<&'a [u8], End> {
    let part = room.get_mut(..length).ok_or(End::TooLong)?;
    read(rt, part)?;
    Ok(part)
}

fn read(rt: &HostRuntime, bytes: &mut [u8]) -> Result<(), End> {
    rt.stdin().read_exact(bytes).map_err(|_| End::CutShort)
}

fn say_checked(rt: &impl Print, checked: Result<ByteLength, TableFault>) {
    let (number, byte) = match checked {
        Ok(length) => (0, length),
        Err(fault) => (fault.number, fault.byte),
    };
    let _ = println!(rt; "{number} {}", byte.0);
}

// The result, a line for each of the entries that the list begins with, and an empty line.
fn say_reading(rt: &impl Print, r: Report, list: &[u64]) {
    let _ = println!(rt;
        "{} {} {} {} {}",
        r.number, r.entries, r.place, r.first, r.second
    );
    let (entries, _) = list.as_chunks::<WORDS_PER_ENTRY>();
    for [kind, place, bits, value, number] in entries.iter().take(r.entries) {
        let _ = println!(rt; "{kind} {place} {bits} {value} {number}");
    }
    let _ = println!(rt);
}
