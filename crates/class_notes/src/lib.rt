// Once per reading: the sizes and alignments of the classes of an accepted table, noted by place, the sizes of its fragments, and the
// numbers of its records. From the back, byte by byte: what a class holds stands behind its record, so that its notes are there when the
// record is met. No recursion is needed, and every class at any depth is noted; bytes that only look like one are noted too, and nobody
// asks of them. Numbers are counted from the front, record by record.
#![tactic(auto)]

ghost use Rattle.std.specs.Prelude.{◌≡◌, ◌+◌, ◌≤◌, ◌<◌, length};
ghost use Rattle.rules.specs.Record.{u8};
ghost use Rattle.rules.specs.Place.{byte_length};
ghost use Rattle.rules.specs.Parse.{checked};
ghost use Rattle.class_layout.specs.Fragments.{fragments_of, AllFragments};
ghost use Rattle.class_layout.specs.Numbers.{next_record, number_behind};
ghost use Rattle.class_layout.specs.Notes.{notes, size_to, note_at, note_below, note_fragments, note_numbers, SizedClasses, Made};

use class_layout::openings::behind_fragment;
use class_layout::words::{with_number, word_of};
use class_reach::reach_of;
use numbers::kinds;
use table_bytes::byte;
use table_records::bodies::{PREAMBLE_SIZE, body_of};

// Notes the sizes and alignments of an accepted table's classes, the sizes of its fragments, and the numbers of its records. The words of
// bytes that are neither the number of a class's kind nor a record's first stay as they came. A size fits 16 bits: no class begins at byte
// 0. So does a number: a record has one byte or more in front of it for each. Two lists, and not one of pairs: most lookups go by sizes
// alone, and memory is fixed, of which pairs would take a third more.
pub fn prepare(table: &[u8], sizes: &mut [u16], aligns: &mut [u32])
    requires table_value { checked table.now ≡ Ok (byte_length (length table.now)) }
    requires table_in_bounds { (length table.now ≤ length sizes.old) × (length table.now ≤ length aligns.old) }
    ensures { Made table.now (notes sizes.old aligns.old) (notes sizes.new aligns.new) }
{
    note_classes(table, sizes, aligns);
    note_fragments(table, sizes);
    note_numbers(table, aligns);
}

// The numbers of all records, from the first on, each into the word at its record's byte.
fn note_numbers(table: &[u8], aligns: &mut [u32])
    requires { (length table.now ≤ length aligns.old) × (length table.now ≤ 65536) }
    ensures { aligns.new ≡ note_numbers table.now aligns.old }
{
    let mut at = 0;
    let mut number = 0;
    // by hand: a record's step is its size, and a walk of its own for this one loop would be longer than the loop
    while at < table.len() {
        aligns[at] = with_number(aligns[at], number);
        at = next_record(table, at);
        number = number_behind(byte(table, at), number);
    }
}

// The byte behind the record at a byte.
fn next_record(table: &[u8], at: usize) -> usize
    requires { (at < length table.now) × (length table.now ≤ 65536) }
    ensures { (result ≡ next_record table.now at) × (result ≤ at + 18) }
{
    match body_of(table[at]) {
        Some(n) => at + 1 + n,
        None => at + 1,
    }
}

// The number of a record of a kind, behind one that has a number: "counted from 0 at the record that opens" its fragment (02, 7).
fn number_behind(kind: u8, number: usize) -> usize
    requires { number < 65536 }
    ensures { result ≡ number_behind kind number }
{
    let opens = kind < kinds::ROOT;
    if opens {
        return 0;
    }
    number + 1
}

// All fragments, from the first on.
fn note_fragments(table: &[u8], sizes: &mut [u16])
    requires { (AllFragments table.now (fragments_of table.now)) × (SizedClasses table.now sizes.old) × (length table.now ≤ 65536) × (length table.now ≤ length sizes.old) }
    ensures { sizes.new ≡ note_fragments table.now (fragments_of table.now) sizes.old }
{
    let mut at = PREAMBLE_SIZE;
    // by hand: a walk (class_layout) goes by the sizes that are noted here first
    while at < table.len() {
        let next = behind_fragment(table, sizes, at);
        sizes[at] = (next - at) as u16;
        at = next;
    }
}

// All classes, from the last byte on.
fn note_classes(table: &[u8], sizes: &mut [u16], aligns: &mut [u32])
    requires { (length table.now ≤ length sizes.old) × (length table.now ≤ length aligns.old) × (length table.now ≤ 65536) × (u8 table.now 0 < 16) }
    ensures { notes sizes.new aligns.new ≡ note_below table.now (length table.now) (notes sizes.old aligns.old) }
{
    for at in (0..table.len()).rev() {
        note_class(table, at, sizes, aligns);
    }
}

// The class at a byte, if the byte is a kind of one.
fn note_class(table: &[u8], at: usize, sizes: &mut [u16], aligns: &mut [u32])
    requires table_in_bounds { (length table.now ≤ length sizes.old) × (length table.now ≤ length aligns.old) × (length table.now ≤ 65536) × (u8 table.now 0 < 16) }
    requires at_in_bounds { at < length table.now }
    ensures { notes sizes.new aligns.new ≡ note_at table.now at (notes sizes.old aligns.old) }
{
    let kind = table[at];
    if kind < kinds::FIRST_CLASS {
        return;
    }
    if kinds::LAST_CLASS < kind {
        return;
    }
    let reach = reach_of(table, at, sizes, aligns);
    let size = size_to(table, at, reach.next);
    sizes[at] = size;
    aligns[at] = word_of(reach.align, reach.sets);
}

// The size of what begins at a byte and ends at another; 0 if that lies past the table.
fn size_to(table: &[u8], at: usize, next: usize) -> u16
    requires { (1 ≤ at) × (length table.now ≤ 65536) × (at ≤ next) }
    ensures { result ≡ size_to table.now at next }
{
    if table.len() < next {
        return 0;
    }
    (next - at) as u16
}
