// How far a class reaches: where it ends, its alignment, and what it sets, by what is noted of the classes behind its record.
#![tactic(auto)]

ghost use Rattle.std.specs.Prelude.{◌≡◌, ◌+◌, ◌≤◌, ◌<◌, length, get_or};
ghost use Rattle.rules.specs.Record.{u8};
ghost use Rattle.class_layout.specs.Notes.{notes, align_noted, sets_noted, Reaches, ReachesMembers, ReachesOptions};

use class_layout::words::{align_of, sets_both, sets_of, sets_one};
use class_layout::{Reach, record_size};
use numbers::kinds;
use table_bytes::{byte, noted_size, wide_byte, wide64};
use table_records::{bodies, slot_named};

// Where the class at a byte ends, by what is noted behind its record.
pub fn reach_of(table: &[u8], at: usize, sizes: &[u16], aligns: &[u32]) -> Reach
    requires { (at < length table.now) × (length table.now ≤ 65536) × (16 ≤ u8 table.now at) × (u8 table.now at ≤ 32) }
    ensures { Reaches table.now (notes sizes.now aligns.now) at result }
{
    let kind = table[at];
    if kind < kinds::FIRST_OF_BYTES {
        return Reach {
            next: at + record_size(kind),
            align: wide64(byte(table, at + 3)),
            sets: sets_one(slot_named(table, at)),
        };
    }
    if kind < kinds::FIRST_THAT_HOLDS {
        return Reach {
            next: at + record_size(kind),
            align: 3,
            sets: sets_one(slot_named(table, at)),
        };
    }
    match kind {
        kinds::STRUCTURE => {
            let members = reach_members(
                sizes,
                aligns,
                at + bodies::STRUCTURE_SIZE,
                wide_byte(table, at + 1),
            );
            Reach {
                next: members.next,
                align: wide64(byte(table, at + 2)).max(members.align),
                sets: members.sets,
            }
        }
        kinds::STATIC_ARRAY => Reach {
            next: end_noted(sizes, at + bodies::STATIC_ARRAY_SIZE),
            align: wide64(byte(table, at + 3)).max(align_noted(
                aligns,
                at + bodies::STATIC_ARRAY_SIZE,
            )),
            sets: sets_noted(aligns, at + bodies::STATIC_ARRAY_SIZE),
        },
        kinds::DYNAMIC_ARRAY => Reach {
            next: end_noted(sizes, at + bodies::DYNAMIC_ARRAY_SIZE),
            align: wide64(byte(table, at + 2)).max(align_noted(
                aligns,
                at + bodies::DYNAMIC_ARRAY_SIZE,
            )),
            sets: sets_noted(aligns, at + bodies::DYNAMIC_ARRAY_SIZE),
        },
        kinds::OPTIONAL => {
            let class = at + bodies::OPTIONAL_SIZE + bodies::RANGE_SIZE * wide_byte(table, at + 2);
            Reach {
                next: end_noted(sizes, class),
                align: 0,
                sets: sets_noted(aligns, class),
            }
        }
        _ => reach_options(
            table,
            sizes,
            aligns,
            at + bodies::VARIANT_SIZE,
            wide_byte(table, at + 2),
        ),
    }
}

fn reach_members(sizes: &[u16], aligns: &[u32], at: usize, count: usize) -> Reach
    requires { (at ≤ 65539) × (count ≤ 255) }
    ensures { ReachesMembers sizes.now aligns.now at count result }
{
    let mut next = at;
    let mut align = 0;
    let mut sets = 0;
    for _ in 0..count {
        align = align.max(align_noted(aligns, next));
        sets = sets_both(sets, sets_noted(aligns, next));
        next = end_noted(sizes, next);
    }
    Reach { next, align, sets }
}

fn reach_options(table: &[u8], sizes: &[u16], aligns: &[u32], at: usize, count: usize) -> Reach
    requires { (at ≤ 65539) × (count ≤ 255) }
    ensures { ReachesOptions table.now (notes sizes.now aligns.now) at count result }
{
    let mut next = at;
    let mut sets = 0;
    for _ in 0..count {
        let class = next + bodies::OPTION_SIZE + bodies::RANGE_SIZE * wide_byte(table, next + 1);
        sets = sets_both(sets, sets_noted(aligns, class));
        next = end_noted(sizes, class);
    }
    Reach {
        next,
        align: 0,
        sets,
    }
}

// Where the class at a byte ends, as noted.
fn end_noted(sizes: &[u16], at: usize) -> usize
    requires { at < 1000000000 }
    ensures { (result ≡ at + get_or sizes.now at 0) × (result ≤ at + 65535) }
{
    at + noted_size(sizes, at)
}

// The exponent of its alignment, and what it sets; 0 past the notes.
fn align_noted(aligns: &[u32], at: usize) -> u64
    ensures { (result ≡ align_noted aligns.now at) × (result < 8) }
{
    align_of(word_noted(aligns, at))
}

fn sets_noted(aligns: &[u32], at: usize) -> usize
    ensures { (result ≡ sets_noted aligns.now at) × (result < 8192) }
{
    sets_of(word_noted(aligns, at))
}

// Its word; 0 past the notes.
fn word_noted(aligns: &[u32], at: usize) -> u32
    ensures { result ≡ get_or aligns.now at 0 }
{
    aligns.get(at).copied().unwrap_or(0)
}
