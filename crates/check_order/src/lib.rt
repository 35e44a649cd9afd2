// The order of fragments and their ids: numbers 4 to 8 ("Refusing a table"). The fragments before one are kept by their places alone; an
// id used before is found by comparing its bytes with theirs.
#![tactic(auto)]

ghost use Rattle.std.specs.Prelude.{◌≡◌, ◌≤◌, ◌<◌, ◌+◌, ◌^◌, length, get_or};
ghost use Rattle.table_offsets.specs.Check.{same as same_bytes, is_named, named as named_in, latest, order_fault};
ghost use Rattle.table_offsets.specs.Faults.{fault_number};

use numbers::{kinds, limits};
use table_bytes::{byte, wide32};
use table_offsets::Fault;

// One place more than the limit: a trace class, which does not count, may stand behind the last fragment that does.
pub const PLACES: usize = limits::FRAGMENT_LIMIT + 1;

// Whether n bytes from a on are those from b on. Byte by byte, and not as slices: an id may be cut short, and what is not there reads 0.
fn same(table: &[u8], a: usize, b: usize, n: usize) -> bool
    requires { (a + n < 2 ^ 63) × (b + n < 2 ^ 63) }
    ensures { result ≡ same_bytes table.now a b n }
{
    for i in (0..n).rev() {
        if byte(table, a + i) != byte(table, b + i) {
            return false;
        }
    }
    true
}

// Whether the fragment at o is of the kind and has the id of `size` bytes that stands at `at`.
fn is_named(table: &[u8], kind: u8, at: usize, size: usize, o: usize) -> bool
    requires { (at + size < 2 ^ 63) × (o + size + 1 < 2 ^ 63) }
    ensures { result ≡ is_named table.now kind at size o }
{
    if byte(table, o) != kind {
        return false;
    }
    same(table, o + 1, at, size)
}

// Whether that holds of one of the fragments at the places `seen`.
fn named(table: &[u8], kind: u8, at: usize, size: usize, seen: &[u32]) -> bool
    requires { (at + size < 2 ^ 63) × (size ≤ 16) }
    ensures { result ≡ named_in table.now kind at size (latest seen.now (length seen.now)) }
{
    for i in (0..seen.len()).rev() {
        if is_named(table, kind, at, size, wide32(seen[i])) {
            return true;
        }
    }
    false
}

// Numbers 4 to 8 of a fragment behind the preamble. An id of no bytes stands for any.
pub fn order_fault(table: &[u8], trace: bool, seen: &[u32], at: usize) -> Result<(), Fault>
    requires { at < 2 ^ 62 }
    ensures { fault_number result ≡ order_fault table.now trace (latest seen.now (length seen.now)) at (get_or table.now at 0) }
{
    let k = byte(table, at);
    match k {
        kinds::PREAMBLE => Err(Fault::PreambleMisplaced),
        kinds::TRACE_CLASS => {
            if trace {
                return Err(Fault::TraceClassMisplaced);
            }
            if named(table, kinds::STREAM_CLASS, at, 0, seen) {
                return Err(Fault::TraceClassMisplaced);
            }
            Ok(())
        }
        kinds::CLOCK_CLASS => {
            if named(table, kinds::CLOCK_CLASS, at + 1, 1, seen) {
                return Err(Fault::IdUsed);
            }
            Ok(())
        }
        kinds::STREAM_CLASS => {
            if named(table, kinds::STREAM_CLASS, at + 1, 8, seen) {
                return Err(Fault::IdUsed);
            }
            if byte(table, at + 9) == limits::NO_CLOCK {
                return Ok(());
            }
            if named(table, kinds::CLOCK_CLASS, at + 9, 1, seen) {
                return Ok(());
            }
            Err(Fault::IdUnknown)
        }
        kinds::EVENT_CLASS => {
            if named(table, kinds::EVENT_CLASS, at + 1, 16, seen) {
                return Err(Fault::IdUsed);
            }
            if named(table, kinds::STREAM_CLASS, at + 1, 8, seen) {
                return Ok(());
            }
            Err(Fault::IdUnknown)
        }
        _ => Ok(()),
    }
}
