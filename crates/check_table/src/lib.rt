// The class table: whether it is sound, and if not, by which number and at which byte ("Refusing a table").
//
// A walk goes from record to record by offsets and stops at the first with a fault, at its lowest number. What a record is, by itself, is
// in the crates below: table_records, check_class, check_ranges, check_fragment; the walk under a root is in check_roots. Homes of slots
// have a walk of their own, in check_slots, and the earlier of both answers is the table's.
#![tactic(auto)]

ghost use Rattle.std.specs.Prelude.{◌≡◌, false, [], ◌≤◌, ◌-◌, length};
ghost use Rattle.rules.specs.Limits.{table_limit};
ghost use Rattle.rules.specs.Parse.{checked};
ghost use Rattle.rules.specs.Place.{byte_length};
ghost use Rattle.rules.specs.Verdict.{table_fault};
ghost use Rattle.table_offsets.specs.Check.{traced as tracedBy, counted as countedOf, fragments_at, checked_at};
ghost use Rattle.table_offsets.specs.Earlier.{earlier};
ghost use Rattle.table_offsets.specs.Faults.{number as numberOf};

use check_fragment::{first_fault, fragment_fault, lowest};
use check_order::PLACES;
use check_roots::{roots_of, stray};
use check_slots::first_home_fault;
use numbers::{kinds, limits};
use rules::{ByteLength, TableFault};
use table_offsets::Fault;
use table_records::bodies;

// "Number 1 is tested first, at byte 0. Then the first record with a fault decides, by its first byte, and there the lowest number"
// (Refusing a table): for every slice of bytes the rules' own answer.
pub fn check(table: &[u8]) -> Result<ByteLength, TableFault>
    ensures { result ≡ checked table.now }
{
    let a = answer(table);
    if table.len() <= limits::TABLE_LIMIT {
        let p = first_home_fault(table);
        return earlier_of(table.len(), a, p);
    }
    a
}

// Of a table of `size` bytes: its answer, or 11 at the byte `p` below the size, whichever comes first: "the first record with a fault
// decides, by its first byte, and there the lowest number" (Refusing a table). With no such byte `p` is the size (`first_home_fault`).
fn earlier_of(
    size: usize,
    a: Result<ByteLength, TableFault>,
    p: usize,
) -> Result<ByteLength, TableFault>
    ensures { result ≡ earlier size a p }
{
    if size <= p {
        return a;
    }
    match a {
        Ok(_) => refused(Fault::SlotNotAllowed, p),
        Err(fault) => {
            let byte = fault.byte.0;
            if p < byte {
                return refused(Fault::SlotNotAllowed, p);
            }
            if byte < p {
                return Err(fault);
            }
            let is_higher = Fault::SlotNotAllowed.number() < fault.number;
            if is_higher {
                return refused(Fault::SlotNotAllowed, p);
            }
            Err(fault)
        }
    }
}

fn refused(fault: Fault, byte: usize) -> Result<ByteLength, TableFault>
    ensures { result ≡ Err (table_fault (numberOf fault) (byte_length byte)) }
{
    Err(TableFault {
        number: fault.number(),
        byte: ByteLength(byte),
    })
}

// The answer by offsets, without the homes of slots.
fn answer(table: &[u8]) -> Result<ByteLength, TableFault>
    ensures { result ≡ checked_at table.now }
{
    if table.len() == 0 {
        return refused(Fault::BadSize, 0);
    }
    let too_long = limits::TABLE_LIMIT < table.len();
    if too_long {
        return refused(Fault::BadSize, 0);
    }
    if let Err(fault) = first_fault(table) {
        return refused(fault, 0);
    }
    if let Err(fault) = stray(table, bodies::PREAMBLE_SIZE) {
        return refused(fault, bodies::PREAMBLE_SIZE);
    }
    check_fragments(table, bodies::PREAMBLE_SIZE)
}

// The fragments behind the preamble, which ends at `at`.
fn check_fragments(table: &[u8], at: usize) -> Result<ByteLength, TableFault>
    requires { (length table.now ≤ table_limit) × (at ≤ table_limit) }
    ensures { result ≡ fragments_at (length table.now - at) table.now false [] at }
{
    let mut seen = [0u32; PLACES]; // the first `n` are the fragments so far: there is no heap
    let mut n: usize = 0;
    let mut trace = false;
    let mut next = at;
    // by hand: a fragment ends where its roots do, which no range counts
    while next < table.len() {
        if let Err(fault) = fragment_fault(table, trace, &seen[..n], next) {
            return refused(fault, next);
        }
        let k = table[next];
        seen[n] = next as u32;
        n = n + counted(k);
        trace = traced(trace, k);
        match roots_of(table, next) {
            Err(found) => {
                let low = lowest(table, trace, &seen[..n], found.fault.number(), found.byte);
                return Err(TableFault {
                    number: low,
                    byte: ByteLength(found.byte),
                });
            }
            Ok(end) => {
                next = end;
            }
        }
    }
    Ok(ByteLength(table.len()))
}

fn counted(k: u8) -> usize
    ensures { result ≡ countedOf k }
{
    if k == kinds::TRACE_CLASS { 0 } else { 1 }
}

fn traced(trace: bool, k: u8) -> bool
    ensures { result ≡ tracedBy trace k }
{
    if k == kinds::TRACE_CLASS { true } else { trace }
}
