// Ranges and options. A range may meet those of its own option, and none of an earlier one ("Refusing a table"); the earlier options are
// kept by their places alone, and their ranges are read again.
#![tactic(auto)]

ghost use Rattle.std.specs.Prelude.{◌≡◌, ◌+◌, ◌*◌, ◌^◌, ◌<◌, length};
ghost use Rattle.table_offsets.specs.Check.{key as key_of, meets_here, meets_one, meets_option, meets_any, latest};
ghost use Rattle.table_offsets.specs.Check.{bounds_fault, range_fault, option_fault, ranges_at};
ghost use Rattle.table_offsets.specs.Faults.{fault_number, walk};

use numbers::{kinds, limits};
use table_bytes::{byte, number, wide, wide32, within};
use table_offsets::{Fault, FaultAt};
use table_records::{bodies, head_fault};

// Half of the 64-bit words.
const HALF: u64 = 1 << 63;

// A word, so that words stand in the order of the numbers that they stand for: a signed one is moved by half of all.
fn key(sign: u8, x: u64) -> u64
    ensures { result ≡ key_of sign x }
{
    if sign == 0 {
        x
    } else {
        std::num::wrapping_add_u64(x, HALF)
    }
}

// Whether low to high meets the range at `at`.
fn meets_here(table: &[u8], sign: u8, low: u64, high: u64, at: usize) -> bool
    requires { at + 10 < 2 ^ 63 }
    ensures { result ≡ meets_here table.now sign low high at }
{
    if key(sign, number(table, at + 10, 8)) < low {
        return false;
    }
    key(sign, number(table, at + 2, 8)) <= high
}

// Whether low to high meets one of the n ranges from `at` on.
fn meets_one(table: &[u8], sign: u8, low: u64, high: u64, at: usize, n: usize) -> bool
    requires { at + 18 * n < 2 ^ 63 }
    ensures { result ≡ meets_one table.now sign low high at n }
{
    let mut next = at;
    for _ in 0..n {
        if meets_here(table, sign, low, high, next) {
            return true;
        }
        next = next + bodies::RANGE_SIZE;
    }
    false
}

// Whether low to high meets one of the ranges of the option at o.
fn meets_option(table: &[u8], sign: u8, low: u64, high: u64, o: usize) -> bool
    requires { o < 2 ^ 32 }
    ensures { result ≡ meets_option table.now sign low high o }
{
    meets_one(
        table,
        sign,
        low,
        high,
        o + bodies::OPTION_SIZE,
        wide(byte(table, o + 1)),
    )
}

// Whether low to high meets one of the ranges of the options at the places `done`.
fn meets(table: &[u8], sign: u8, low: u64, high: u64, done: &[u32]) -> bool
    ensures { result ≡ meets_any table.now sign low high (latest done.now (length done.now)) }
{
    for i in (0..done.len()).rev() {
        if meets_option(table, sign, low, high, wide32(done[i])) {
            return true;
        }
    }
    false
}

// Number 13 of a range from low to high: "range low above high, mixed signs in one optional or variant, or ranges of two options
// meeting". The first range of the optional or variant stands at `first`.
fn bounds_fault(
    table: &[u8],
    first: usize,
    done: &[u32],
    sign: u8,
    low: u64,
    high: u64,
) -> Result<(), Fault>
    requires { first < 2 ^ 63 }
    ensures { fault_number result ≡ bounds_fault table.now first (latest done.now (length done.now)) sign low high }
{
    if high < low {
        return Err(Fault::RangesContradict);
    }
    if byte(table, first + 1) != sign {
        return Err(Fault::RangesContradict);
    }
    if meets(table, sign, low, high, done) {
        return Err(Fault::RangesContradict);
    }
    Ok(())
}

// The lowest number of the record at `at` as a range.
fn range_fault(table: &[u8], first: usize, done: &[u32], at: usize) -> Result<(), Fault>
    requires { first < 2 ^ 63 }
    ensures { fault_number result ≡ range_fault table.now first (latest done.now (length done.now)) at }
{
    head_fault(table, at)?;
    if table[at] != kinds::RANGE {
        return Err(Fault::KindNotAllowed);
    }
    let sign = byte(table, at + 1);
    if 1 < sign {
        return Err(Fault::NumberOutOfRange);
    }
    let low = key(sign, number(table, at + 2, 8));
    let high = key(sign, number(table, at + 10, 8));
    bounds_fault(table, first, done, sign, low, high)
}

pub fn check_ranges(
    table: &[u8],
    first: usize,
    done: &[u32],
    at: usize,
    count: usize,
) -> Result<usize, FaultAt>
    requires { first < 2 ^ 63 }
    ensures { walk result ≡ ranges_at table.now first (latest done.now (length done.now)) at count }
{
    let mut next = at;
    for _ in 0..count {
        if let Err(fault) = range_fault(table, first, done, next) {
            return Err(FaultAt { fault, byte: next });
        }
        next = next + bodies::RANGE_SIZE;
    }
    Ok(next)
}

// The lowest number of the record at `at` as an option.
pub fn option_fault(table: &[u8], at: usize) -> Result<(), Fault>
    ensures { fault_number result ≡ option_fault table.now at }
{
    head_fault(table, at)?;
    if table[at] != kinds::OPTION {
        return Err(Fault::KindNotAllowed);
    }
    if within(byte(table, at + 1), 1, limits::RANGE_LIMIT) {
        return Ok(());
    }
    Err(Fault::NumberOutOfRange)
}
