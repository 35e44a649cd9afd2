// The lookups: which fragment is the trace class, a stream class or an event class. The first two go over the fragments from the front, by
// the sizes that `prepare` noted; an event class is looked up in an index that `make_index` fills once per reading.
#![tactic(auto)]

ghost use Rattle.std.specs.Prelude.{◌≡◌, ℕ, ◌+◌, ◌≤◌, ◌<◌, ◌^◌, Bool, length};
ghost use Rattle.class_layout.specs.Fragments.{is_trace, is_stream, is_event, first_of, fragments_of, Fragment};
ghost use Rattle.class_layout.specs.Fragments.{find_trace_at, find_stream_at, find_event_at};
ghost use Rattle.class_layout.specs.Sizes.{Sized};
ghost use Rattle.class_lookup.specs.Index.{mixed, home_of, put_from, index_one, indexed, Hints};
ghost use Rattle.class_lookup.specs.Tests.{Tests};

use class_layout::walk::fragments;
use numbers::kinds;
use table_bytes::{u64_at, wide32};

// Places of the index: twice as many as there can be event classes (15), so that some are always empty. By hand, and no map of the
// library's: memory is fixed, and there is no heap.
pub const PLACES: usize = 4096;

// 2 to the 32: half of an id.
const HALF: u64 = 4294967296;

// A factor for each half of each id.
const STREAM_LOW: u64 = 770493857;

const STREAM_HIGH: u64 = 671546289;

const ID_LOW: u64 = 582208147;

const ID_HIGH: u64 = 659168895;

// 2 to the 31: ids are mixed to below it.
const MIXED: u64 = 2147483648;

// The trace class.
pub fn find_trace_class(table: &[u8], sizes: &[u16]) -> Option<usize>
    requires { Sized table.now sizes.now }
    ensures { result ≡ find_trace_at table.now (fragments_of table.now) }
{
    first_fragment(table, sizes, |at| is_trace_class(table, at))
}

// The stream class that has an id.
pub fn find_stream_class(table: &[u8], sizes: &[u16], id: u64) -> Option<usize>
    requires { Sized table.now sizes.now }
    ensures { result ≡ find_stream_at table.now (fragments_of table.now) id }
{
    first_fragment(table, sizes, |at| is_stream_class(table, at, id))
}

// The event class that has both ids: by the index, and where that does not have it, from the front.
pub fn find_event_class(
    table: &[u8],
    sizes: &[u16],
    index: &[u32],
    stream: u64,
    id: u64,
) -> Option<usize>
    requires sized { Sized table.now sizes.now }
    requires hints { Hints table.now index.now }
    ensures { result ≡ find_event_at table.now (fragments_of table.now) stream id }
{
    let from = home(stream, id);
    for step in 0..PLACES {
        let place = wide32(index[(from + step) % PLACES]);
        if place == 0 {
            break;
        }
        if is_event_class(table, place, stream, id) {
            return Some(place);
        }
    }
    search_event_class(table, sizes, stream, id)
}

// Puts the places of all event classes into an index that is empty.
pub fn make_index(table: &[u8], sizes: &[u16], index: &mut [u32])
    requires { (Sized table.now sizes.now) × (length index.old ≡ 4096) }
    ensures { index.new ≡ indexed table.now (fragments_of table.now) index.old }
{
    for at in fragments(table, sizes) {
        index_one(table, index, at);
    }
}

// Puts the place of a fragment into the index, if it is an event class.
fn index_one(table: &[u8], index: &mut [u32], at: usize)
    requires { (Fragment table.now at) × (length table.now ≤ 65536) × (length index.old ≡ 4096) }
    ensures { index.new ≡ index_one table.now at index.old }
{
    if table[at] == kinds::EVENT_CLASS {
        put(
            index,
            home(u64_at(table, at + 1), u64_at(table, at + 9)),
            at,
        );
    }
}

// Puts a place into the first empty one from another on.
fn put(index: &mut [u32], from: usize, place: usize)
    requires { (length index.old ≡ 4096) × (from < 4096) × (place < 2 ^ 32) }
    ensures { index.new ≡ put_from 4096 index.old from place }
{
    for step in 0..PLACES {
        let at = (from + step) % PLACES;
        if index[at] == 0 {
            index[at] = place as u32;
            return;
        }
    }
}

// Where the search for a pair of ids begins: the twelve highest of 31 bits, each of which depends on all bits below it.
fn home(stream: u64, id: u64) -> usize
    ensures { (result ≡ home_of stream id) × (result < 4096) }
{
    let x = mix(stream, id);
    (x * (2 * x + 1) % MIXED / 524288) as usize
}

// Both ids as one number.
fn mix(stream: u64, id: u64) -> u64
    ensures { (result ≡ mixed stream id) × (result < 2 ^ 31) }
{
    (stream % HALF * STREAM_LOW
        + stream / HALF * STREAM_HIGH
        + id % HALF * ID_LOW
        + id / HALF * ID_HIGH)
        % MIXED
}

// The event class that has both ids, from the front.
fn search_event_class(table: &[u8], sizes: &[u16], stream: u64, id: u64) -> Option<usize>
    requires { Sized table.now sizes.now }
    ensures { result ≡ find_event_at table.now (fragments_of table.now) stream id }
{
    first_fragment(table, sizes, |at| is_event_class(table, at, stream, id))
}

// The first fragment that passes a test.
fn first_fragment<F: Fn(usize) -> bool>(table: &[u8], sizes: &[u16], passes: F) -> Option<usize>
    requires sized { Sized table.now sizes.now }
    requires asked { (o : ℕ) → Fragment table.now o → F.pre passes o }
    ensures { (test : ℕ → Bool) → Tests table.now (F.post passes) test
        → result ≡ first_of test (fragments_of table.now) }
{
    for at in fragments(table, sizes) {
        if passes(at) {
            return Some(at);
        }
    }
    None
}

fn is_trace_class(table: &[u8], at: usize) -> bool
    requires { at < length table.now }
    ensures { result ≡ is_trace table.now at }
{
    table[at] == kinds::TRACE_CLASS
}

fn is_stream_class(table: &[u8], at: usize, id: u64) -> bool
    requires { (Fragment table.now at) × (length table.now ≤ 65536) }
    ensures { result ≡ is_stream table.now id at }
{
    let is_class = table[at] == kinds::STREAM_CLASS;
    if is_class {
        return u64_at(table, at + 1) == id;
    }
    false
}

fn is_event_class(table: &[u8], at: usize, stream: u64, id: u64) -> bool
    requires { (Fragment table.now at) × (length table.now ≤ 65536) }
    ensures { result ≡ is_event table.now stream id at }
{
    if table[at] == kinds::EVENT_CLASS {
        let of_stream = u64_at(table, at + 1) == stream;
        if of_stream {
            return u64_at(table, at + 9) == id;
        }
        return false;
    }
    false
}
