// Roots: they follow their fragment, "each once, in rising number, each followed by a structure" (The class table).
//
// In cycle: the classes under a root.
#![tactic(auto)]

ghost use Rattle.std.specs.Prelude.{◌≡◌, ◌≤◌, ◌<◌, ◌+◌, ◌^◌, length, get_or};
ghost use Rattle.rules.specs.Limits.{table_limit};
ghost use Rattle.table_offsets.specs.Check.{root_here, root_at, stray as strayAt, roots_at, roots_of};
ghost use Rattle.table_offsets.specs.Faults.{fault_number, walk};

use cycle::check_class;
use numbers::{kinds, limits, roots};
use table_bytes::byte;
use table_offsets::{Fault, FaultAt, Under};
use table_records::{bodies, head_fault};

mod cycle;

// Whether a whole record of the root n stands at `at`.
fn root_here(table: &[u8], n: u8, at: usize) -> bool
    ensures { result ≡ root_here table.now n at }
{
    if head_fault(table, at).is_err() {
        return false;
    }
    if table[at] != kinds::ROOT {
        return false;
    }
    byte(table, at + 1) == n
}

// Whether a root stands where none may: "a root 0 to 5 that is foreign, repeated or out of turn" (9).
pub fn stray(table: &[u8], at: usize) -> Result<(), Fault>
    ensures { fault_number result ≡ strayAt table.now at }
{
    if table.len() <= at {
        return Ok(());
    }
    if table[at] != kinds::ROOT {
        return Ok(());
    }
    head_fault(table, at)?;
    if byte(table, at + 1) < roots::ROOTS {
        return Err(Fault::KindNotAllowed);
    }
    Err(Fault::NumberOutOfRange)
}

// The class of the root n where that stands at `at`.
fn check_root(table: &[u8], timed: bool, uuid: bool, n: u8, at: usize) -> Result<usize, FaultAt>
    requires { length table.now ≤ table_limit }
    ensures { walk result ≡ root_at table.now timed uuid n at }
{
    if root_here(table, n, at) {
        let u = Under {
            root: n,
            timed: timed,
            uuid: uuid,
            start: at + bodies::ROOT_SIZE,
        };
        return check_class(table, u, limits::DEPTH_LIMIT, at + bodies::ROOT_SIZE);
    }
    Ok(at)
}

// So many roots from the number `first` on, each there or not, and no root behind them.
fn check_roots(
    table: &[u8],
    timed: bool,
    uuid: bool,
    first: u8,
    count: u8,
    at: usize,
) -> Result<usize, FaultAt>
    requires { (length table.now ≤ table_limit) × (first + count ≤ 6) }
    ensures { walk result ≡ roots_at table.now timed uuid first at count }
{
    let mut next = at;
    for n in first..first + count {
        next = check_root(table, timed, uuid, n, next)?;
    }
    if let Err(fault) = stray(table, next) {
        return Err(FaultAt { fault, byte: next });
    }
    Ok(next)
}

// The roots behind the fragment at `at`: "root 0 under a trace class, 1 to 3 under a stream class, 4 and 5 under an event class".
pub fn roots_of(table: &[u8], at: usize) -> Result<usize, FaultAt>
    requires { (length table.now ≤ table_limit) × ((at < 2 ^ 62) × ((2 ≤ get_or table.now at 0) × (get_or table.now at 0 ≤ 5))) }
    ensures { walk result ≡ roots_of table.now at (get_or table.now at 0) }
{
    let k = byte(table, at);
    match k {
        kinds::TRACE_CLASS => check_roots(
            table,
            false,
            byte(table, at + 1) == 1,
            roots::PACKET_HEADER,
            1,
            at + bodies::TRACE_CLASS_SIZE,
        ),
        kinds::CLOCK_CLASS => check_roots(
            table,
            false,
            false,
            roots::PACKET_HEADER,
            0,
            at + bodies::CLOCK_CLASS_SIZE,
        ),
        kinds::STREAM_CLASS => check_roots(
            table,
            byte(table, at + 9) != limits::NO_CLOCK,
            false,
            roots::PACKET_CONTEXT,
            3,
            at + bodies::STREAM_CLASS_SIZE,
        ),
        _ => check_roots(
            table,
            false,
            false,
            roots::SPECIFIC_CONTEXT,
            2,
            at + bodies::EVENT_CLASS_SIZE,
        ),
    }
}
