// The slots that a class and all that it holds can set: "at the start and the end of each array element, the slots that any class inside
// that element can set become unset" (02, 3). The records of a class stand one behind the other, so that one pass over its bytes meets them
// all: no recursion, and no step over the sixty-four slots.
#![tactic(auto)]

ghost use Rattle.std.specs.Prelude.{◌≡◌, ◌+◌, ◌<◌, ◌^◌, get_or};
ghost use Rattle.rules.specs.Slots.{unset};
ghost use Rattle.class_slots.specs.Named.{behind_record, slots_of};

use numbers::limits;
use rules::{Content, Slot};
use table_bytes::{byte, noted_size, wide};
use table_records::bodies::mark_of;
use table_records::slot_named;

// What a class sets is just one of the sixty-four slots where the number noted of it (class_layout, words) is 1 to this.
pub const ONE_SLOT: usize = 64;

// The byte behind the record at a byte.
fn behind_record(table: &[u8], at: usize) -> usize
    requires { at < 2 ^ 63 }
    ensures { result ≡ behind_record table.now at }
{
    at + 1 + wide(mark_of(byte(table, at)))
}

// The byte behind the class at a byte, by its size; where none is noted that byte itself.
fn class_end(sizes: &[u16], at: usize) -> usize
    ensures { (result ≡ at + get_or sizes.now at 0) × (at < result → result < 2 ^ 63) }
{
    at + noted_size(sizes, at)
}

// The slots without those that the class at a byte, or one that it holds, sets.
pub fn forgotten(table: &[u8], sizes: &[u16], at: usize, given: [Slot; 64]) -> [Slot; 64]
    ensures { result ≡ unset given (slots_of table.now sizes.now at) }
{
    let mut slots = given;
    let end = class_end(sizes, at);
    let mut next = at;
    // by hand: a record's step is its size, and a walk of its own for this one loop would be longer than the loop
    while next < end {
        let i = slot_named(table, next);
        let is_slot = i <= limits::LAST_SLOT;
        if is_slot {
            let content = Content::Unset;
            slots[i as usize] = Slot { content };
        }
        next = behind_record(table, next);
    }
    slots
}
