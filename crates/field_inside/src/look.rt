// What a field of kinds 28 to 32 holds, once its slot and its alignment have passed: so many classes one behind the other, or one class so
// many times; with the place and the value of its own entry. Nothing is listed here, and no field inside is read.
ghost use Rattle.std.specs.Prelude.{◌≡◌, ◌+◌, ◌≤◌, ◌<◌, ◌^◌, length};
ghost use Rattle.rules.specs.Record.{u8};
ghost use Rattle.class_layout.specs.Notes.{notes};
ghost use Rattle.field_inside.specs.Inside.{within, standing, members_from, elements_from, optional_inside, variant_inside, inside_of, slot_read_at, HolderStands};

use class_layout::words::align_of;
use field_choice::{Choice, choose_option, choose_optional};
use frame::Frame;
use numbers::{kinds, limits};
use rules::{BitPlace, Content, Refusal, Stop};
use slots::length_of;
use table_bytes::{count_at, size_at, u16_at};
use table_records::bodies;

// Members: the field's place and value, and `count` classes one behind the other from the byte `from` on. Elements: the same, and the class
// at `from`, `count` times. Three ends, each taken in its own way: a Result would put two into one.
#[derive(Clone, Copy)]
pub enum Inside {
    Members {
        place: BitPlace,
        value: u64,
        from: usize,
        count: usize,
    },
    Elements {
        place: BitPlace,
        value: u64,
        from: usize,
        count: usize,
    },
    Refused(Stop),
}

// The slot that the class of kind 26 to 32 at a byte reads; 255 where it reads none.
pub fn slot_read(table: &[u8], at: usize) -> usize
    requires { (26 ≤ u8 table.now at) × (u8 table.now at ≤ 32) × (at + 2 ≤ length table.now) }
    ensures { (result ≡ slot_read_at table.now at) × (result < 256) }
{
    match table[at] {
        kinds::STRUCTURE => limits::NO_SLOT_READ,
        kinds::STATIC_ARRAY => limits::NO_SLOT_READ,
        _ => count_at(table, at + 1),
    }
}

// What the class at a byte holds, where `content` is what the slot holds that it reads.
pub fn look(
    table: &[u8],
    sizes: &[u16],
    aligns: &[u32],
    at: usize,
    frame: Frame,
    place: BitPlace,
    content: Content,
) -> Inside
    requires holder_stands { HolderStands table.now (notes sizes.now aligns.now) at }
    requires start_le_place { (frame.start.0 ≤ place.0) × (place.0 + 64 ≤ 2 ^ 64) }
    ensures { result ≡ inside_of table.now (notes sizes.now aligns.now) at frame place content }
{
    match table[at] {
        kinds::STRUCTURE => members(
            count_at(table, at + 1),
            at + bodies::STRUCTURE_SIZE,
            align_of(aligns[at]),
            frame,
            place,
        ),
        kinds::STATIC_ARRAY => elements(
            u16_at(table, at + 1),
            at + bodies::STATIC_ARRAY_SIZE,
            align_of(aligns[at]),
            frame,
            place,
        ),
        kinds::DYNAMIC_ARRAY => match length_of(content) {
            Err(why) => Inside::Refused(Stop { why, place }),
            Ok(n) => elements(
                n,
                at + bodies::DYNAMIC_ARRAY_SIZE,
                align_of(aligns[at]),
                frame,
                place,
            ),
        },
        kinds::OPTIONAL => optional(
            choose_optional(table, at, content),
            at + size_at(sizes, at),
            place,
        ),
        _ => variant(choose_option(table, sizes, at, content), place),
    }
}

fn members(count: usize, from: usize, exponent: u64, frame: Frame, place: BitPlace) -> Inside
    requires { (exponent ≤ 6) × (frame.start.0 ≤ place.0) × (place.0 + 64 ≤ 2 ^ 64) }
    ensures { result ≡ standing frame (2 ^ exponent) place (members_from count from) }
{
    let aligned = places::align(place, frame.start, exponent);
    let told = Inside::Members {
        place: aligned,
        value: count as u64,
        from,
        count,
    };
    within(frame, aligned, told)
}

fn elements(count: usize, from: usize, exponent: u64, frame: Frame, place: BitPlace) -> Inside
    requires { (exponent ≤ 6) × (frame.start.0 ≤ place.0) × (place.0 + 64 ≤ 2 ^ 64) }
    ensures { result ≡ standing frame (2 ^ exponent) place (elements_from count from) }
{
    let aligned = places::align(place, frame.start, exponent);
    let told = Inside::Elements {
        place: aligned,
        value: count as u64,
        from,
        count,
    };
    within(frame, aligned, told)
}

// What is told of a place, unless it lies past the bound: "For 22 the place becomes the bound that would be crossed." (02, 8)
fn within(frame: Frame, place: BitPlace, told: Inside) -> Inside
    ensures { result ≡ within frame place told }
{
    let bound = frame.bound;
    if bound.0 < place.0 {
        return Inside::Refused(Stop {
            why: Refusal::PastBound,
            place: bound,
        });
    }
    told
}

// "optionals bits 0 and 1 or 0" (The list)
fn optional(choice: Choice, behind: usize, place: BitPlace) -> Inside
    ensures { result ≡ optional_inside place behind choice }
{
    match choice {
        Choice::Refused(why) => Inside::Refused(Stop { why, place }),
        Choice::Nothing => Inside::Members {
            place,
            value: 0,
            from: behind,
            count: 0,
        },
        Choice::Class {
            at: class,
            option: _,
        } => Inside::Members {
            place,
            value: 1,
            from: class,
            count: 1,
        },
    }
}

// "variants bits 0 and the option's number from 0" (The list); "selector in no option" (29)
fn variant(choice: Choice, place: BitPlace) -> Inside
    ensures { result ≡ variant_inside place choice }
{
    match choice {
        Choice::Refused(why) => Inside::Refused(Stop { why, place }),
        Choice::Nothing => Inside::Refused(Stop {
            why: Refusal::SelectorInNoOption,
            place,
        }),
        Choice::Class { at: class, option } => Inside::Members {
            place,
            value: option,
            from: class,
            count: 1,
        },
    }
}
