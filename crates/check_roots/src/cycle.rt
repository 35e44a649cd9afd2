// A class and all that it holds. Each record is tested by itself; the walk goes on behind it, a depth less left for what it holds.
ghost use Rattle.std.specs.Prelude.{◌≡◌, [], ◌≤◌, ◌<◌, ◌+◌, ◌^◌, length};
ghost use Rattle.rules.specs.Limits.{table_limit};
ghost use Rattle.table_offsets.specs.Check.{members_at, options_at, class_at};
ghost use Rattle.table_offsets.specs.Faults.{walk};

use check_class::class_fault;
use check_ranges::{check_ranges, option_fault};
use numbers::{kinds, limits};
use table_bytes::{byte, wide};
use table_offsets::{FaultAt, Under};
use table_records::bodies;
use table_records::bodies::mark_of;

// The class at `at` with so many depths left, its own among them.
#[cycle(check_class_check_members_check_options)]
pub(crate) fn check_class(
    table: &[u8],
    under: Under,
    left: usize,
    at: usize,
) -> Result<usize, FaultAt>
    requires { length table.now ≤ table_limit }
    ensures { walk result ≡ class_at under left table.now at }
{
    if let Err(fault) = class_fault(table, under, left, at) {
        return Err(FaultAt { fault, byte: at });
    }
    let k = table[at];
    let deeper = left - 1;
    let first = wide(byte(table, at + 1));
    let second = wide(byte(table, at + 2));
    match k {
        kinds::STRUCTURE => check_members(table, under, deeper, at + bodies::STRUCTURE_SIZE, first),
        kinds::STATIC_ARRAY => check_class(table, under, deeper, at + bodies::STATIC_ARRAY_SIZE),
        kinds::DYNAMIC_ARRAY => check_class(table, under, deeper, at + bodies::DYNAMIC_ARRAY_SIZE),
        kinds::OPTIONAL => {
            let ranges = at + bodies::OPTIONAL_SIZE;
            let class = check_ranges(table, ranges, &[], ranges, second)?;
            check_class(table, under, deeper, class)
        }
        kinds::VARIANT => check_options(table, under, deeper, at + bodies::VARIANT_SIZE, second),
        _ => Ok(at + 1 + wide(mark_of(k))),
    }
}

#[cycle(check_class_check_members_check_options)]
fn check_members(
    table: &[u8],
    under: Under,
    left: usize,
    at: usize,
    count: usize,
) -> Result<usize, FaultAt>
    requires { length table.now ≤ table_limit }
    ensures { walk result ≡ members_at (class_at under left table.now) at count }
{
    let mut next = at;
    for _ in 0..count {
        next = check_class(table, under, left, next)?;
    }
    Ok(next)
}

// The options of a variant, each with its ranges and its class. The first range, two bytes on, gives the sign of all.
#[cycle(check_class_check_members_check_options)]
fn check_options(
    table: &[u8],
    under: Under,
    left: usize,
    at: usize,
    count: usize,
) -> Result<usize, FaultAt>
    requires { (length table.now ≤ table_limit) × ((at < 2 ^ 62) × (count ≤ 32)) }
    ensures { walk result ≡ options_at (class_at under left table.now) table.now (at + 2) [] at count }
{
    let mut done = [0u32; limits::OPTION_LIMIT]; // the first `n` are the options so far: there is no heap
    let mut next = at;
    for n in 0..count {
        if let Err(fault) = option_fault(table, next) {
            return Err(FaultAt { fault, byte: next });
        }
        let class = check_ranges(
            table,
            at + bodies::OPTION_SIZE,
            &done[..n],
            next + bodies::OPTION_SIZE,
            wide(byte(table, next + 1)),
        )?;
        let end = check_class(table, under, left, class)?;
        done[n] = next as u32;
        next = end;
    }
    Ok(next)
}
