// A record of a class table by itself.
//
// bodies        how long the body of each kind of record is
// head_fault    whether a record is one and all there
// record_says   what a class record says, all kinds in one form
// slot_named    the slot that a record names to be set, and nothing else of it
#![tactic(auto)]

ghost use Rattle.std.specs.Prelude.{◌≡◌, ◌≤◌, ◌<◌, ◌+◌, ◌^◌, get_or};
ghost use Rattle.table_offsets.specs.Check.{head_fault, bits_say, say, says_at};
ghost use Rattle.table_offsets.specs.Faults.{fault_number};
ghost use Rattle.table_records.specs.Named.{slot_place, named_at};

use bodies::{NO_KIND, mark_of};
use numbers::{kinds, limits, roles};
use table_bytes::{byte, two, wide};
use table_offsets::{Fault, Says};

pub mod bodies;

// Whether the record at `at` is one and all there: numbers 2 and 3.
pub fn head_fault(table: &[u8], at: usize) -> Result<(), Fault>
    ensures { fault_number result ≡ head_fault table.now at }
{
    if table.len() <= at {
        return Err(Fault::CutShort);
    }
    let b = mark_of(table[at]);
    if b == NO_KIND {
        return Err(Fault::UnknownKind);
    }
    if table.len() - at <= wide(b) {
        return Err(Fault::CutShort);
    }
    Ok(())
}

// What the class record at `at` says. The body's bytes are read before its kind is looked at; a kind uses those that it has.
pub fn record_says(table: &[u8], at: usize) -> Says
    requires { (at + 1 < 2 ^ 63) × ((16 ≤ get_or table.now at 0) × (get_or table.now at 0 ≤ 32)) }
    ensures { result ≡ says_at table.now at }
{
    let k = byte(table, at);
    let b1 = byte(table, at + 1);
    let b2 = byte(table, at + 2);
    let b3 = byte(table, at + 3);
    let b4 = byte(table, at + 4);
    let b5 = byte(table, at + 5);
    let b12 = two(table, at + 1);
    match k {
        kinds::BIT_ARRAY => fixed(table, at, kinds::BIT_ARRAY, limits::NO_SLOT, roles::NO_ROLE),
        kinds::BOOLEAN => fixed(table, at, kinds::BOOLEAN, b4, roles::NO_ROLE),
        kinds::UNSIGNED => fixed(table, at, kinds::UNSIGNED, b4, b5),
        kinds::SIGNED => fixed(table, at, kinds::SIGNED, b4, roles::NO_ROLE),
        kinds::FLOAT => fixed(table, at, kinds::FLOAT, limits::NO_SLOT, roles::NO_ROLE),
        kinds::LEB128_UNSIGNED => plain(kinds::LEB128_UNSIGNED, b1, 0, b2, 1, 0),
        kinds::LEB128_SIGNED => plain(kinds::LEB128_SIGNED, b1, 0, roles::NO_ROLE, 1, 0),
        kinds::NULL_TERMINATED_STRING => plain(
            kinds::NULL_TERMINATED_STRING,
            limits::NO_SLOT,
            0,
            roles::NO_ROLE,
            1,
            0,
        ),
        kinds::STATIC_STRING => plain(
            kinds::STATIC_STRING,
            limits::NO_SLOT,
            0,
            roles::NO_ROLE,
            b12,
            0,
        ),
        kinds::STATIC_BLOB => plain(kinds::STATIC_BLOB, limits::NO_SLOT, 0, b3, b12, 0),
        kinds::DYNAMIC_STRING => plain(
            kinds::DYNAMIC_STRING,
            limits::NO_SLOT,
            b1,
            roles::NO_ROLE,
            1,
            0,
        ),
        kinds::DYNAMIC_BLOB => plain(
            kinds::DYNAMIC_BLOB,
            limits::NO_SLOT,
            b1,
            roles::NO_ROLE,
            1,
            0,
        ),
        kinds::STRUCTURE => plain(
            kinds::STRUCTURE,
            limits::NO_SLOT,
            0,
            roles::NO_ROLE,
            wide(b1),
            b2,
        ),
        kinds::STATIC_ARRAY => plain(
            kinds::STATIC_ARRAY,
            limits::NO_SLOT,
            0,
            roles::NO_ROLE,
            b12,
            b3,
        ),
        kinds::DYNAMIC_ARRAY => plain(
            kinds::DYNAMIC_ARRAY,
            limits::NO_SLOT,
            b1,
            roles::NO_ROLE,
            1,
            b2,
        ),
        kinds::OPTIONAL => plain(
            kinds::OPTIONAL,
            limits::NO_SLOT,
            b1,
            roles::NO_ROLE,
            wide(b2),
            0,
        ),
        _ => plain(
            kinds::VARIANT,
            limits::NO_SLOT,
            b1,
            roles::NO_ROLE,
            wide(b2),
            0,
        ),
    }
}

// Kinds 16 to 20: "length, order, align" come first.
fn fixed(table: &[u8], at: usize, kind: u8, sets: u8, role: u8) -> Says
    requires { at < 2 ^ 63 }
    ensures { result ≡ bits_say table.now at kind sets role }
{
    Says {
        kind: kind,
        length: byte(table, at + 1),
        order: byte(table, at + 2),
        align: byte(table, at + 3),
        sets: sets,
        reads: 0,
        role: role,
        count: 1,
    }
}

// The other kinds.
fn plain(kind: u8, sets: u8, reads: u8, role: u8, count: usize, align: u8) -> Says
    ensures { result ≡ say kind sets reads role count align }
{
    Says {
        kind: kind,
        length: 1,
        order: 0,
        align: align,
        sets: sets,
        reads: reads,
        role: role,
        count: count,
    }
}

// Where a record names the slot to set, from its first byte: behind "length, order, align"; first in its body (The class table); or not,
// which is 0 as in the definition (`slot_place`).
const BEHIND_ALIGN: usize = 4;

const FIRST_IN_BODY: usize = 1;

const NOWHERE: usize = 0;

// How far behind its first byte a record of a kind names the slot to set.
fn slot_place(kind: u8) -> usize
    ensures { (result ≡ slot_place kind) × (result ≤ 4) }
{
    match kind {
        kinds::BOOLEAN => BEHIND_ALIGN,
        kinds::UNSIGNED => BEHIND_ALIGN,
        kinds::SIGNED => BEHIND_ALIGN,
        kinds::LEB128_UNSIGNED => FIRST_IN_BODY,
        kinds::LEB128_SIGNED => FIRST_IN_BODY,
        _ => NOWHERE,
    }
}

// The slot that the record at a byte names to be set, 255 where none.
pub fn slot_named(table: &[u8], at: usize) -> u8
    requires { at < 2 ^ 63 }
    ensures { result ≡ named_at table.now at }
{
    let place = slot_place(byte(table, at));
    if place == NOWHERE {
        return limits::NO_SLOT;
    }
    byte(table, at + place)
}
