// What a class may say where it stands ("The class table"; numbers 9 to 12 and 14 of "Refusing a table"): each record is tested by itself,
// the lowest number first. In roles: which role may stand where.
#![tactic(auto)]

ghost use Rattle.std.specs.Prelude.{◌≡◌};
ghost use Rattle.table_offsets.specs.Check.{length_ok, count_ok, number_fault, slot_fault, kind_fault, class_fault};
ghost use Rattle.table_offsets.specs.Faults.{fault_number};

use numbers::{kinds, limits, roots};
use roles::role_ok;
use table_bytes::within;
use table_offsets::{Fault, Says, Under};
use table_records::{head_fault, record_says};

mod roles;

const RANGES: usize = limits::RANGE_LIMIT as usize;

// "Length is 1 to 64 bits", of a float "32 or 64".
fn length_ok(kind: u8, length: u8) -> bool
    ensures { result ≡ length_ok kind length }
{
    if kind == kinds::FLOAT {
        match length {
            32 => true,
            64 => true,
            _ => false,
        }
    } else {
        within(length, 1, 64)
    }
}

// "members 0 to 64", "ranges 0 to 16", "options 1 to 32".
fn count_ok(kind: u8, count: usize) -> bool
    ensures { result ≡ count_ok kind count }
{
    match kind {
        kinds::STRUCTURE => count <= limits::MEMBER_LIMIT,
        kinds::OPTIONAL => count <= RANGES,
        kinds::VARIANT => {
            if count < 1 {
                return false;
            }
            count <= limits::OPTION_LIMIT
        }
        _ => true,
    }
}

// Number 10. "Order is 0 little, 1 big. Align is an exponent 0 to 6."
fn number_fault(says: Says) -> Result<(), Fault>
    ensures { fault_number result ≡ number_fault says }
{
    if !length_ok(says.kind, says.length) {
        return Err(Fault::NumberOutOfRange);
    }
    if 1 < says.order {
        return Err(Fault::NumberOutOfRange);
    }
    let align_out = 6 < says.align;
    if align_out {
        return Err(Fault::NumberOutOfRange);
    }
    if within(says.sets, limits::FIRST_SLOT_OUT, limits::LAST_SLOT_OUT) {
        return Err(Fault::NumberOutOfRange);
    }
    if within(says.reads, limits::FIRST_SLOT_OUT, limits::LAST_SLOT_OUT) {
        return Err(Fault::NumberOutOfRange);
    }
    if numbers::roles::LAST_ROLE < says.role {
        return Err(Fault::NumberOutOfRange);
    }
    if !count_ok(says.kind, says.count) {
        return Err(Fault::NumberOutOfRange);
    }
    Ok(())
}

// Number 11. "Packet roots read only 0 to 15; event roots read any"; none reads the mark that says that no slot is set.
fn slot_fault(root: u8, sets: u8, reads: u8) -> Result<(), Fault>
    ensures { fault_number result ≡ slot_fault root sets reads }
{
    if root < roots::EVENT_HEADER {
        let past_packet = limits::LAST_PACKET_SLOT < reads;
        if past_packet {
            return Err(Fault::SlotNotAllowed);
        }
        if within(sets, limits::FIRST_EVENT_SLOT, limits::LAST_SLOT_OUT) {
            return Err(Fault::SlotNotAllowed);
        }
        return Ok(());
    }
    if limits::LAST_SLOT < reads {
        return Err(Fault::SlotNotAllowed);
    }
    if sets < limits::FIRST_EVENT_SLOT {
        return Err(Fault::SlotNotAllowed);
    }
    Ok(())
}

// Number 9: each root is "followed by a structure"; elsewhere any class may stand.
fn kind_fault(k: u8, start: usize, at: usize) -> Result<(), Fault>
    ensures { fault_number result ≡ kind_fault k start at }
{
    if at == start {
        if k == kinds::STRUCTURE {
            return Ok(());
        }
        return Err(Fault::KindNotAllowed);
    }
    if within(k, kinds::BIT_ARRAY, kinds::VARIANT) {
        return Ok(());
    }
    Err(Fault::KindNotAllowed)
}

// The lowest number of the record at `at` as a class with so many depths left.
pub fn class_fault(table: &[u8], under: Under, left: usize, at: usize) -> Result<(), Fault>
    ensures { fault_number result ≡ class_fault under left table.now at }
{
    head_fault(table, at)?;
    kind_fault(table[at], under.start, at)?;
    let y = record_says(table, at);
    number_fault(y)?;
    slot_fault(under.root, y.sets, y.reads)?;
    if !role_ok(y, under, at) {
        return Err(Fault::RoleNotAllowed);
    }
    let too_deep = left == 0;
    if too_deep {
        return Err(Fault::TooDeep);
    }
    Ok(())
}
