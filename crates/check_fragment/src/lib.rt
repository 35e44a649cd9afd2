// A record where a fragment is due, tested by itself, the lowest number first: the preamble, and then numbers 4 to 10 and 15 ("Refusing a
// table"). The order of fragments and their ids have a crate of their own, `check_order`.
#![tactic(auto)]

ghost use Rattle.std.specs.Prelude.{◌≡◌, ◌≤◌, ◌<◌, ◌+◌, ◌^◌, ltb, length, get_or};
ghost use Rattle.rules.specs.Limits.{table_limit};
ghost use Rattle.table_offsets.specs.Check.{pick_n, latest, open_fault, fragment_fault, lowest as lowestOf, first_fault};
ghost use Rattle.table_offsets.specs.Faults.{fault_number};

use check_order::order_fault;
use numbers::{kinds, limits};
use table_bytes::{byte, number};
use table_offsets::Fault;
use table_records::head_fault;

const VERSION: u8 = 2;

// The first record's number: a preamble with the version.
pub fn first_fault(table: &[u8]) -> Result<(), Fault>
    ensures { fault_number result ≡ first_fault table.now }
{
    head_fault(table, 0)?;
    if table[0] != kinds::PREAMBLE {
        return Err(Fault::PreambleMisplaced);
    }
    if byte(table, 1) != VERSION {
        return Err(Fault::WrongVersion);
    }
    Ok(())
}

// Number 15 of a fragment of kinds 3, 4, 5 behind n others.
fn many_fault(n: usize) -> Result<(), Fault>
    ensures { fault_number result ≡ pick_n (ltb 511 n) 15 0 }
{
    let is_many = limits::FRAGMENT_LIMIT <= n;
    if is_many {
        return Err(Fault::TooManyFragments);
    }
    Ok(())
}

// Numbers 9, 10 and 15 of a record where a fragment is due.
fn open_fault(table: &[u8], n: usize, at: usize) -> Result<(), Fault>
    requires { at < 2 ^ 62 }
    ensures { fault_number result ≡ open_fault table.now n at (get_or table.now at 0) }
{
    let k = byte(table, at);
    match k {
        kinds::TRACE_CLASS => {
            if 1 < byte(table, at + 1) {
                return Err(Fault::NumberOutOfRange);
            }
            Ok(())
        }
        kinds::CLOCK_CLASS => {
            if byte(table, at + 1) == limits::NO_CLOCK {
                return Err(Fault::NumberOutOfRange);
            }
            if number(table, at + 2, 8) == 0 {
                return Err(Fault::NumberOutOfRange);
            }
            many_fault(n)
        }
        kinds::STREAM_CLASS => many_fault(n),
        kinds::EVENT_CLASS => many_fault(n),
        _ => Err(Fault::KindNotAllowed),
    }
}

// The lowest number of the record at `at` as a fragment behind those at the places `seen`.
pub fn fragment_fault(table: &[u8], trace: bool, seen: &[u32], at: usize) -> Result<(), Fault>
    requires { length table.now ≤ table_limit }
    ensures { fault_number result ≡ fragment_fault table.now trace (latest seen.now (length seen.now)) (length seen.now) at }
{
    head_fault(table, at)?;
    order_fault(table, trace, seen, at)?;
    open_fault(table, seen.len(), at)
}

// The lowest number of a record that has the number m as a class, a root, a range or an option: a fragment there may have one from 4 to 8.
pub fn lowest(table: &[u8], trace: bool, seen: &[u32], m: u8, at: usize) -> u8
    requires { length table.now ≤ table_limit }
    ensures { result ≡ lowestOf table.now trace (latest seen.now (length seen.now)) m at }
{
    // by numbers: the promise is for any m
    let is_lower = m < Fault::PreambleMisplaced.number();
    if is_lower {
        return m;
    }
    if table.len() <= at {
        return m;
    }
    match order_fault(table, trace, seen, at) {
        Err(fault) => fault.number(),
        Ok(()) => m,
    }
}
