// Leaves of the classes at bytes of the table: each is found by the numbers of its record, and what is seen of it is told by its kind. Each
// number is read where it is needed; what the check of the table has shown of it is not tested again. Its entry's fifth word is noted.
#![tactic(auto)]

ghost use Rattle.std.specs.Prelude.{◌≡◌, ◌+◌, ◌≤◌, ◌<◌, length, get_or};
ghost use Rattle.rules.specs.Limits.{words_per_entry};
ghost use Rattle.rules.specs.Record.{u8};
ghost use Rattle.rules.specs.Parse.{order_of};
ghost use Rattle.frame.specs.Framed.{Framed};
ghost use Rattle.slots.specs.Taken.{length_of};
ghost use Rattle.leaf_after.specs.Seeing.{for_length};
ghost use Rattle.class_layout.specs.Trees.{IsWhole};
ghost use Rattle.class_layout.specs.Fields.{onward};
ghost use Rattle.class_layout.specs.Notes.{SizedClasses, NumberedClasses};
ghost use Rattle.leaf_read.specs.Reads.{Held, leaf_slot};
ghost use Rattle.leaf_read.specs.Seen.{seen_at, BitsSeen, dynamic_seen};
ghost use Rattle.leaf_read.specs.Leaves.{content_of, stopped_leaves, list_behind, leaves_end, leaves_read, Standing};

use class_layout::words::number_of;
use frame::Frame;
use leaf_after::{Leaves, Seen};
use leaf_find_bytes::{find_blob, find_string, find_text};
use leaf_find_number::{find_bits, find_signed, find_unsigned};
use leaf_see_bytes::{plain, static_blob};
use leaf_see_number::fixed::{bit_array, boolean, float, signed, unsigned};
use leaf_see_number::leb::{signed_leb, unsigned_leb};
use listing::entry::{is_full, write};
use numbers::{kinds, limits};
use rules::{BitPlace, ByteLength, Content, Order, Refusal, Stop};
use slots::length_of;
use table_bytes::{size_at, u16_at, wide, wide64};

// The slot that the leaf at a byte reads; 255 where it reads none.
pub fn leaf_slot(table: &[u8], at: usize) -> usize
    requires whole { IsWhole 1 table.now at }
    requires at_bound { u8 table.now at < 28 }
    ensures { result ≡ leaf_slot table.now at }
{
    let reads_none = table[at] < kinds::DYNAMIC_STRING;
    if reads_none {
        return limits::NO_SLOT_READ;
    }
    wide(table[at + 1])
}

// Leaves that stand one behind the other, or the one at a byte `again` and again: of `count` as many as there is room for, up to and with
// the first that sets a slot or has a role, or in front of one that reads a slot or holds fields. The first is a leaf, with room for its
// entry; `content` is what the slot holds that it reads, unset where it reads none. Entries and places are done; slot and role are not.
pub fn read_leaves(
    table: &[u8],
    sizes: &[u16],
    aligns: &[u32],
    uuid: &[u8],
    stream: &[u8],
    frame: Frame,
    from: usize,
    count: usize,
    again: bool,
    begun: BitPlace,
    last: Option<Order>,
    content: Content,
    list: &mut [u64],
) -> Leaves
    requires standing { Standing again table.now from count }
    requires from_bound { (u8 table.now from < 28) × (1 ≤ count) × (words_per_entry ≤ length list.old) }
    requires table_in_bounds { (length table.now ≤ length sizes.now) × SizedClasses table.now sizes.now }
    requires table_in_bounds_2 { (length table.now ≤ length aligns.now) × NumberedClasses table.now aligns.now }
    requires framed { Framed stream.now frame begun }
    requires held { Held (leaf_slot table.now from) content }
    ensures value { result ≡ (leaves_read again table.now stream.now uuid.now frame content from count begun last
        (length list.old)).leaves }
    ensures list_after { list.new ≡ list_behind (leaves_read again table.now stream.now uuid.now frame content from
        count begun last (length list.old)) list.old }
{
    let mut at = from;
    let mut todo = count;
    let mut place = begun;
    let mut order = last;
    let mut used: usize = 0;
    loop {
        let number = number_of(aligns[at]);
        match see_leaf(
            table, at, number, uuid, stream, frame, place, order, content,
        ) {
            Seen::Stops(stop) => {
                return stopped(stop.why, at, todo, stop.place, order, used);
            }
            Seen::OtherUuid(entry) => {
                write(&mut list[used..], entry);
                return stopped(
                    Refusal::WrongUuid,
                    at,
                    todo,
                    places::further(entry.place, entry.bits),
                    order,
                    used + limits::WORDS_PER_ENTRY,
                );
            }
            Seen::Field(due) => {
                let entry = due.entry;
                write(&mut list[used..], entry);
                used = used + limits::WORDS_PER_ENTRY;
                todo = todo - 1;
                place = places::further(entry.place, entry.bits);
                order = due.order;
                let next = onward(sizes, at, again);
                if ends(table, next, todo, list.len() - used, due.slot, due.role) {
                    return Leaves {
                        on: true,
                        why: Refusal::PastBound,
                        at,
                        todo,
                        place,
                        order,
                        used,
                        slot: due.slot,
                        role: due.role,
                        width: due.width,
                        value: entry.value,
                    };
                }
                at = next;
            }
        }
    }
}

// Leaves before one that stopped.
fn stopped(
    why: Refusal,
    at: usize,
    todo: usize,
    place: BitPlace,
    order: Option<Order>,
    used: usize,
) -> Leaves
    ensures { result ≡ stopped_leaves why at todo place order used }
{
    Leaves {
        on: false,
        why,
        at,
        todo,
        place,
        order,
        used,
        slot: 255,
        role: 0,
        width: 0,
        value: 0,
    }
}

// What the slot of a leaf of a kind becomes.
pub fn content_of(kind: u8, value: u64) -> Content
    ensures { result ≡ content_of kind value }
{
    match kind {
        kinds::BOOLEAN => Content::Flag(value != 0),
        kinds::SIGNED => Content::Signed(value),
        kinds::LEB128_SIGNED => Content::Signed(value),
        _ => Content::Unsigned(value),
    }
}

// The byte at which the class of the next field stands: the same `again`, or behind the one at a byte.
pub fn onward(sizes: &[u16], at: usize, again: bool) -> usize
    requires { at < length sizes.now }
    ensures { result ≡ onward again at (at + get_or sizes.now at 0) }
{
    if again {
        return at;
    }
    at + size_at(sizes, at)
}

// Whether the leaves end behind one with such a slot and role.
fn ends(table: &[u8], next: usize, todo: usize, room: usize, slot: u8, role: u8) -> bool
    requires { 0 < todo → next < length table.now }
    ensures { result ≡ leaves_end table.now next todo room slot role }
{
    if todo == 0 {
        return true;
    }
    if is_full(room) {
        return true;
    }
    let reads_or_holds = kinds::DYNAMIC_STRING <= table[next];
    if reads_or_holds {
        return true;
    }
    let sets_slot = slot < 64;
    if sets_slot {
        return true;
    }
    role != 0
}

// What is seen of the leaf at a byte, from a place on; `last` is the order of the packet's last field of kind 16 to 20.
fn see_leaf(
    table: &[u8],
    at: usize,
    number: u64,
    uuid: &[u8],
    stream: &[u8],
    frame: Frame,
    from: BitPlace,
    last: Option<Order>,
    content: Content,
) -> Seen
    requires whole { IsWhole 1 table.now at }
    requires at_bound { u8 table.now at < 28 }
    requires framed { Framed stream.now frame from }
    ensures { result ≡ seen_at number table.now stream.now uuid.now frame at from last content }
{
    if table[at] < kinds::FIRST_OF_BYTES {
        return see_bits(table, at, number, stream, frame, from, last);
    }
    match table[at] {
        kinds::LEB128_UNSIGNED => unsigned_leb(
            find_unsigned(stream, frame, from),
            number,
            last,
            table[at + 1],
            table[at + 2],
        ),
        kinds::LEB128_SIGNED => signed_leb(
            find_signed(stream, frame, from),
            number,
            last,
            table[at + 1],
        ),
        kinds::NULL_TERMINATED_STRING => plain(
            kinds::NULL_TERMINATED_STRING,
            find_string(stream, frame, from),
            number,
            last,
        ),
        kinds::STATIC_STRING => {
            let bytes = ByteLength(u16_at(table, at + 1));
            plain(
                kinds::STATIC_STRING,
                find_text(stream, frame, from, bytes),
                number,
                last,
            )
        }
        kinds::STATIC_BLOB => {
            let bytes = ByteLength(u16_at(table, at + 1));
            static_blob(
                find_blob(stream, frame, from, bytes),
                number,
                table[at + 3],
                last,
                uuid,
                stream,
            )
        }
        _ => see_dynamic(table[at], number, content, stream, frame, from, last),
    }
}

// Kinds 26 and 27, as long as a slot says.
fn see_dynamic(
    kind: u8,
    number: u64,
    content: Content,
    stream: &[u8],
    frame: Frame,
    from: BitPlace,
    last: Option<Order>,
) -> Seen
    requires { Framed stream.now frame from }
    ensures { result ≡ for_length from (length_of content) (dynamic_seen number stream.now frame from last kind) }
{
    match length_of(content) {
        Err(why) => Seen::Stops(Stop { why, place: from }),
        Ok(bytes) => {
            if kind == kinds::DYNAMIC_STRING {
                return plain(
                    kind,
                    find_text(stream, frame, from, ByteLength(bytes)),
                    number,
                    last,
                );
            }
            plain(
                kind,
                find_blob(stream, frame, from, ByteLength(bytes)),
                number,
                last,
            )
        }
    }
}

// Kinds 16 to 20: width, order and align, as an exponent of 2, stand first in each of their records.
fn see_bits(
    table: &[u8],
    at: usize,
    number: u64,
    stream: &[u8],
    frame: Frame,
    from: BitPlace,
    last: Option<Order>,
) -> Seen
    requires whole { IsWhole 1 table.now at }
    requires at_bound { u8 table.now at < 21 }
    requires framed { Framed stream.now frame from }
    ensures { BitsSeen number table.now stream.now frame at from last result }
{
    let width = wide64(table[at + 1]);
    let order = order_of(table[at + 2]);
    let exponent = wide64(table[at + 3]);
    let found = find_bits(stream, frame, from, last, width, order, exponent);
    match table[at] {
        kinds::BIT_ARRAY => bit_array(found, number, order),
        kinds::BOOLEAN => boolean(found, number, order, table[at + 4]),
        kinds::UNSIGNED => unsigned(found, number, order, table[at + 4], table[at + 5]),
        kinds::SIGNED => signed(found, number, order, table[at + 4]),
        _ => float(found, number, order),
    }
}

// "Order is 0 little, 1 big" (The class table)
fn order_of(byte: u8) -> Order
    ensures { result ≡ order_of byte }
{
    match byte {
        0 => Order::Little,
        _ => Order::Big,
    }
}
