// Which record stands at a byte, and where the walk goes on.
ghost use Rattle.std.specs.Prelude.{◌≡◌, ◌≢◌, MatchOption};
ghost use Rattle.check_slots.specs.Homes.{nowhere as nowhereFrom, is_a, is_among, class_size, behind_range, behind_ranges};
ghost use Rattle.check_slots.specs.Homes.{behind_option};

use numbers::kinds;
use table_bytes::{byte, wide, within};
use table_records::bodies::mark_of;
use table_records::{bodies, head_fault};

// Where a walk ends that finds no such record: at the end, or where it stands, if that is no byte.
pub(crate) fn nowhere(table: &[u8], at: usize) -> usize
    ensures { result ≡ nowhereFrom table.now at }
{
    table.len().max(at)
}

// Whether a whole record of the kind stands at `at`.
pub(crate) fn is_a(table: &[u8], kind: u8, at: usize) -> bool
    ensures { result ≡ is_a table.now kind at }
{
    if head_fault(table, at).is_err() {
        return false;
    }
    byte(table, at) == kind
}

// The same of the kinds from low to high.
pub(crate) fn is_among(table: &[u8], low: u8, high: u8, at: usize) -> bool
    ensures { result ≡ is_among table.now low high at }
{
    if head_fault(table, at).is_err() {
        return false;
    }
    within(byte(table, at), low, high)
}

// How many bytes the class record at `at` takes, where a whole one stands there.
pub(crate) fn class_size(table: &[u8], at: usize) -> Option<usize>
    ensures { MatchOption result (class_size table.now at ≡ 0) (λ size. (size ≡ class_size table.now at) × (size ≢ 0)) }
{
    if table.len() <= at {
        return None;
    }
    let k = byte(table, at);
    if !within(k, kinds::FIRST_CLASS, kinds::LAST_CLASS) {
        return None;
    }
    let size = 1 + wide(mark_of(k));
    if table.len() - at < size {
        return None;
    }
    Some(size)
}

fn behind_range(table: &[u8], at: usize) -> usize
    ensures { result ≡ behind_range table.now at }
{
    if is_a(table, kinds::RANGE, at) {
        return at + bodies::RANGE_SIZE;
    }
    nowhere(table, at)
}

pub(crate) fn behind_ranges(table: &[u8], at: usize, count: usize) -> usize
    ensures { result ≡ behind_ranges table.now at count }
{
    let mut next = at;
    for _ in 0..count {
        next = behind_range(table, next);
    }
    next
}

// Behind an option with its ranges: there its class stands.
pub(crate) fn behind_option(table: &[u8], at: usize) -> usize
    ensures { result ≡ behind_option table.now at }
{
    if is_a(table, kinds::OPTION, at) {
        return behind_ranges(table, at + bodies::OPTION_SIZE, wide(byte(table, at + 1)));
    }
    nowhere(table, at)
}
