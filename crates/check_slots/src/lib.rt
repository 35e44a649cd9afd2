// One slot, one home: "A table in which a slot is set both inside an array element and outside it, within one packet's or one event's
// roots, is refused as 11." (02, 3) A walk of its own over the records, to the first class that sets a slot which one of another home has
// set; what it cannot go over, other numbers refuse.
//
// steps     which record stands at a byte, and where the walk goes on behind ranges and options
// classes   a class and all that it holds; roots
//
// A walk answers the place where it goes on, or the byte of a class at fault, which ends the walks around it too. A place below the
// table's length is a byte of it; the length is where the walk ends or finds no record that it can go over, and nothing goes on from
// there. An event class begins with what its stream class's roots set. The homes of 128 such fragments are kept; if they are not among
// these, the roots are walked anew. With more stream classes than that, each has few bytes: it is not worth the room.
#![tactic(auto)]

ghost use Rattle.std.specs.Prelude.{◌≡◌, ◌≤◌, ◌<◌, ◌+◌, ◌^◌, [], eqb, length};
ghost use Rattle.rules.specs.Limits.{table_limit};
ghost use Rattle.table_offsets.specs.Check.{pick_n, latest};
ghost use Rattle.check_slots.specs.Homes.{homes_of, all_roots_at, stream_roots, roots_before, header_with};
ghost use Rattle.check_slots.specs.Homes.{fragments_at, first_home_fault};
ghost use Rattle.check_slots.specs.Told.{Told};

use classes::{SLOT_VALUES, walk_roots};
use numbers::kinds;
use steps::{is_among, nowhere};
use table_bytes::{byte, number, wide, wide32};
use table_records::bodies;
use table_records::bodies::mark_of;

mod classes;
mod steps;

// A stream class takes ten bytes, so that no table has more of them than this less one.
const STREAMS: usize = 6_554;

// What the roots of so many fragments set is kept at once.
const KEPT: usize = 128;

// What the roots from `before` on set, with nothing set before them.
fn homes_from(table: &[u8], before: usize) -> [u16; SLOT_VALUES]
    requires { length table.now ≤ table_limit }
    ensures { result ≡ homes_of table.now before }
{
    let mut homes = [0u16; SLOT_VALUES];
    let _ = walk_roots(table, &mut homes, before); // a fault is told where these roots are a fragment's own
    homes
}

// The same, where what the roots from `of` on set is known.
fn renewed(table: &[u8], known: [u16; SLOT_VALUES], of: usize, before: usize) -> [u16; SLOT_VALUES]
    requires { (length table.now ≤ table_limit) × (known ≡ homes_of table.now of) }
    ensures { result ≡ homes_of table.now before }
{
    if of == before {
        return known;
    }
    homes_from(table, before)
}

// Where what the roots from `before` on set is kept; if nowhere, the turn. The answer does not hang on it: `renewed` asks once more.
fn kept_at(places: &[usize; KEPT], before: usize, turn: usize) -> usize
    requires { turn < 128 }
    ensures { result < 128 }
{
    places
        .iter()
        .position(|place| *place == before)
        .unwrap_or(turn)
}

// The turn goes on where it was taken.
fn next_turn(turn: usize, i: usize) -> usize
    requires { turn < 128 }
    ensures { result < 128 }
{
    if turn == i {
        return (turn + 1) % KEPT;
    }
    turn
}

// The roots from `at` on, where such slots have been set in the same packet or event: where they end, or the byte of a class at fault.
fn walk_fragment(table: &[u8], before: [u16; SLOT_VALUES], at: usize) -> Result<usize, usize>
    requires { length table.now ≤ table_limit }
    ensures { Told table.now at (all_roots_at table.now at before).0 result }
{
    let mut homes = before;
    walk_roots(table, &mut homes, at)
}

// Where the roots of the latest stream class of an id begin, of those at the places; if there is none, the table's length.
fn stream_roots(table: &[u8], id: u64, streams: &[u32]) -> usize
    ensures { result ≡ stream_roots table.now id (latest streams.now (length streams.now)) }
{
    for i in (0..streams.len()).rev() {
        let o = wide32(streams[i]);
        if number(table, o + 1, 8) == id {
            return o + bodies::STREAM_CLASS_SIZE;
        }
    }
    table.len()
}

// Where the roots begin that the fragment at `at` has before its own in a packet or an event.
fn roots_before(table: &[u8], header: usize, streams: &[u32], at: usize) -> usize
    requires { at < 2 ^ 62 }
    ensures { result ≡ roots_before table.now header (latest streams.now (length streams.now)) at }
{
    let k = byte(table, at);
    match k {
        kinds::STREAM_CLASS => header,
        kinds::EVENT_CLASS => stream_roots(table, number(table, at + 1, 8), streams),
        _ => table.len(),
    }
}

fn header_with(table: &[u8], header: usize, at: usize) -> usize
    requires { at < 2 ^ 62 }
    ensures { result ≡ header_with table.now header at }
{
    if byte(table, at) == kinds::TRACE_CLASS {
        return at + bodies::TRACE_CLASS_SIZE;
    }
    header
}

fn counted(k: u8) -> usize
    ensures { result ≡ pick_n (eqb k 4) 1 0 }
{
    usize::from(k == kinds::STREAM_CLASS)
}

// The fragments from the table's start on.
fn walk_fragments(table: &[u8]) -> Result<usize, usize>
    requires { length table.now ≤ table_limit }
    ensures { Told table.now 0 (fragments_at table.now (length table.now) [] 0 (length table.now)) result }
{
    let mut known = [[0u16; SLOT_VALUES]; KEPT];
    let mut places = [table.len(); KEPT];
    let mut turn: usize = 0;
    let mut streams = [0u32; STREAMS]; // the first `n` are the stream classes so far: there is no heap
    let mut n: usize = 0;
    let mut header = table.len();
    let mut next: usize = 0;
    for _ in 0..table.len() {
        if !is_among(table, kinds::PREAMBLE, kinds::EVENT_CLASS, next) {
            return Ok(nowhere(table, next));
        }
        let k = table[next];
        let before = roots_before(table, header, &streams[..n], next);
        header = header_with(table, header, next);
        streams[n] = next as u32;
        n += counted(k);
        let i = kept_at(&places, before, turn);
        let homes = renewed(table, known[i], places[i], before);
        known[i] = homes;
        places[i] = before;
        turn = next_turn(turn, i);
        next = walk_fragment(table, homes, next + 1 + wide(mark_of(k)))?;
    }
    Ok(next)
}

// The byte of the first class that sets a slot of another home, or the table's length where there is none: for every slice of bytes the
// rules' own walk.
pub fn first_home_fault(table: &[u8]) -> usize
    requires { length table.now ≤ table_limit }
    ensures { result ≡ first_home_fault table.now }
{
    match walk_fragments(table) {
        Ok(_) => table.len(),
        Err(at) => at,
    }
}
