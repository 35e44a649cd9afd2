// A field of kinds 28 to 32 opened: its own entry is listed, and what it holds is said in numbers alone, for a run of fields.
ghost use Rattle.std.specs.Prelude.{◌≡◌, [], ◌∷◌, ◌++◌, ◌+◌, ◌≤◌, ◌<◌, ◌^◌, length, drop};
ghost use Rattle.rules.specs.Limits.{words_per_entry};
ghost use Rattle.rules.specs.Record.{u8};
ghost use Rattle.rules.specs.Entry.{words, entry};
ghost use Rattle.class_layout.specs.Notes.{notes, align_noted, number_noted};
ghost use Rattle.field_inside.specs.Inside.{inside_of, HolderStands};
ghost use Rattle.field_inside.specs.Opening.{opened_as, list_opened, entered_at, list_entered, went_in, forgets_at};

use crate::look::{Inside, look};
use class_layout::words::{align_of, number_of, sets_of};
use frame::Frame;
use listing::entry::write;
use numbers::kinds;
use rules::{BitPlace, Content, Entry, Refusal};
use table_bytes::wide64;

// A field that was opened: its place, and what it holds, as `Inside` has it, with what is forgotten around each element (02, 3); or why it
// was not, and at which place.
#[derive(Clone, Copy)]
pub struct Opened {
    pub on: bool,
    pub why: Refusal,
    pub place: BitPlace,
    pub from: usize,
    pub count: usize,
    pub elements: bool,
    pub forgets: usize,
}

// Opens the field of the class at a byte, and lists its entry, where there is room for it. `content` is what the slot holds that it reads.
pub fn open_field(
    table: &[u8],
    sizes: &[u16],
    aligns: &[u32],
    frame: Frame,
    at: usize,
    place: BitPlace,
    content: Content,
    list: &mut [u64],
) -> Opened
    requires holder_stands { HolderStands table.now (notes sizes.now aligns.now) at }
    requires start_le_place { (frame.start.0 ≤ place.0) × (place.0 + 64 ≤ 2 ^ 64) }
    requires words_per_entry_in_bounds { words_per_entry ≤ length list.old }
    ensures value { result ≡ opened_as aligns.now
        (inside_of table.now (notes sizes.now aligns.now) at frame place content) }
    ensures list_after { list.new ≡ list_opened (u8 table.now at) (number_noted aligns.now at)
        (inside_of table.now (notes sizes.now aligns.now) at frame place content) list.old }
{
    let kind = table[at];
    let number = number_of(aligns[at]);
    match look(table, sizes, aligns, at, frame, place, content) {
        Inside::Refused(stop) => Opened {
            on: false,
            why: stop.why,
            place: stop.place,
            from: 0,
            count: 0,
            elements: false,
            forgets: 0,
        },
        Inside::Members {
            place: there,
            value,
            from,
            count,
        } => {
            list_holder(kind, there, value, number, list);
            went_in(there, from, count, false, 0)
        }
        Inside::Elements {
            place: there,
            value,
            from,
            count,
        } => {
            list_holder(kind, there, value, number, list);
            let forgets = forgotten_around(aligns, from, count);
            went_in(there, from, count, true, forgets)
        }
    }
}

fn went_in(place: BitPlace, from: usize, count: usize, elements: bool, forgets: usize) -> Opened
    ensures { result ≡ went_in place from count elements forgets }
{
    Opened {
        on: true,
        why: Refusal::PastBound,
        place,
        from,
        count,
        elements,
        forgets,
    }
}

// What is forgotten around each of so many elements of the class at a byte: what it sets; nothing where there is no element.
fn forgotten_around(aligns: &[u32], at: usize, count: usize) -> usize
    ensures { result ≡ forgets_at aligns.now at count }
{
    if count == 0 {
        return 0;
    }
    if at < aligns.len() {
        return sets_of(aligns[at]);
    }
    0
}

// Whether a structure was entered, and its place; or the bound, past which that lies.
#[derive(Clone, Copy)]
pub struct Entered {
    pub on: bool,
    pub place: BitPlace,
}

// The same of the structure at a byte, which reads no slot: what it holds stands in its record.
pub fn enter_structure(
    table: &[u8],
    aligns: &[u32],
    frame: Frame,
    at: usize,
    from: BitPlace,
    list: &mut [u64],
) -> Entered
    requires at_in_bounds { (at + 2 ≤ length table.now) × (at < length aligns.now) × (align_noted aligns.now at ≤ 6) }
    requires start_le_from { (frame.start.0 ≤ from.0) × (from.0 + 64 ≤ 2 ^ 64) }
    requires words_per_entry_in_bounds { words_per_entry ≤ length list.old }
    ensures value { result ≡ entered_at frame (2 ^ align_noted aligns.now at) from }
    ensures list_after { list.new ≡ list_entered frame (2 ^ align_noted aligns.now at) from (u8 table.now (at + 1))
        (number_noted aligns.now at) list.old }
{
    let place = places::align(from, frame.start, align_of(aligns[at]));
    let bound = frame.bound;
    if bound.0 < place.0 {
        return Entered {
            on: false,
            place: bound,
        };
    }
    list_holder(
        kinds::STRUCTURE,
        place,
        wide64(table[at + 1]),
        number_of(aligns[at]),
        list,
    );
    Entered { on: true, place }
}

// The entry of a field that holds fields: it has no bits of its own.
fn list_holder(kind: u8, place: BitPlace, value: u64, number: u64, list: &mut [u64])
    requires { words_per_entry ≤ length list.old }
    ensures { list.new ≡ words (entry kind place 0 value number ∷ []) ++ drop words_per_entry list.old }
{
    write(
        list,
        Entry {
            kind: wide64(kind),
            place,
            bits: 0,
            value,
            number,
        },
    );
}
