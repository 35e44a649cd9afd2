// A class and all that it holds; roots.
ghost use Rattle.std.specs.Prelude.{◌≡◌, ◌≤◌, ◌<◌, ◌^◌, length};
ghost use Rattle.rules.specs.Limits.{table_limit};
ghost use Rattle.check_slots.specs.Homes.{set_elsewhere, noted, home_within, parts as parts_of, part_at, class_at, all_roots_at};
ghost use Rattle.check_slots.specs.Told.{Told};

use crate::steps::{behind_option, behind_ranges, class_size, is_a, nowhere};
use numbers::{kinds, limits};
use table_bytes::{byte, wide, within};
use table_records::{bodies, slot_named};

// Homes by value: two bytes for each value of a slot byte, so that no slot is out of range. An array's record is longer than its kind, so
// that 1 more than its place fits.
pub(crate) const SLOT_VALUES: usize = 256;

// The depths of classes, and one more: of a class below them the record alone is looked at.
const DEPTHS: usize = limits::DEPTH_LIMIT + 1;

// The home of what stands in no array; no class stands at byte 0.
const NO_ARRAY: u16 = 0;

// Whether a class of another home has set the slot.
fn elsewhere(homes: &[u16], slot: u8, home: u16) -> bool
    requires { (length homes.now ≡ 256) × (home < 65535) }
    ensures { result ≡ set_elsewhere homes.now slot home }
{
    let h = homes[wide(slot)];
    if h == 0 {
        return false;
    }
    h != home + 1
}

fn note(homes: &mut [u16], slot: u8, home: u16)
    requires { (length homes.old ≡ 256) × (home < 65535) }
    ensures { homes.new ≡ noted homes.old slot home }
{
    if slot != limits::NO_SLOT {
        homes[wide(slot)] = home + 1;
    }
}

fn home_within(table: &[u8], home: u16, at: usize) -> u16
    requires { at < 65536 }
    ensures { result ≡ home_within table.now home at }
{
    let k = byte(table, at);
    match k {
        kinds::STATIC_ARRAY => at as u16,
        kinds::DYNAMIC_ARRAY => at as u16,
        _ => home,
    }
}

// How many classes the one at `at` holds.
fn parts(table: &[u8], at: usize) -> usize
    requires { at < 2 ^ 62 }
    ensures { result ≡ parts_of table.now at }
{
    let k = byte(table, at);
    if k == kinds::STRUCTURE {
        return wide(byte(table, at + 1));
    }
    if k == kinds::VARIANT {
        return wide(byte(table, at + 2));
    }
    if within(k, kinds::STATIC_ARRAY, kinds::OPTIONAL) {
        return 1;
    }
    0
}

// Where the next of them stands, what is left of them beginning at `next`.
fn part_at(table: &[u8], at: usize, next: usize) -> usize
    requires { at < 2 ^ 62 }
    ensures { result ≡ part_at table.now at next }
{
    let k = byte(table, at);
    match k {
        kinds::OPTIONAL => behind_ranges(table, next, wide(byte(table, at + 2))),
        kinds::VARIANT => behind_option(table, next),
        _ => next,
    }
}

// The class at `at`, whose home is given, with so many depths left: where the walk goes on, or the byte of a class at fault.
fn walk_class(
    table: &[u8],
    homes: &mut [u16],
    left: usize,
    home: u16,
    at: usize,
) -> Result<usize, usize>
    requires { (length table.now ≤ table_limit) × ((length homes.old ≡ 256) × (home < 65535)) }
    ensures place { Told table.now at (class_at left table.now home at homes.old).0 result }
    ensures set { homes.new ≡ (class_at left table.now home at homes.old).1 }
{
    if left == 0 {
        return Ok(nowhere(table, at));
    }
    let Some(size) = class_size(table, at) else {
        return Ok(nowhere(table, at));
    };
    let slot = slot_named(table, at);
    if elsewhere(homes, slot, home) {
        return Err(at);
    }
    note(homes, slot, home);
    let mut next = at + size;
    let is_leaf = byte(table, at) < kinds::STRUCTURE;
    if is_leaf {
        return Ok(next);
    }
    let inner = home_within(table, home, at);
    let deeper = left - 1;
    for _ in 0..parts(table, at) {
        next = walk_class(table, homes, deeper, inner, part_at(table, at, next))?;
    }
    Ok(next)
}

// The roots from `at` on, whatever their numbers.
pub(crate) fn walk_roots(table: &[u8], homes: &mut [u16], at: usize) -> Result<usize, usize>
    requires { (length table.now ≤ table_limit) × (length homes.old ≡ 256) }
    ensures place { Told table.now at (all_roots_at table.now at homes.old).0 result }
    ensures set { homes.new ≡ (all_roots_at table.now at homes.old).1 }
{
    let mut next = at;
    for _ in 0..table.len().saturating_sub(at) {
        if !is_a(table, kinds::ROOT, next) {
            return Ok(next);
        }
        next = walk_class(table, homes, DEPTHS, NO_ARRAY, next + bodies::ROOT_SIZE)?;
    }
    Ok(next) // behind the table it ends where it begins
}
