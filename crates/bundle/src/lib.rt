// The smallest bundle: what stays of a table so that streams read by it as they did, and no class more. The streams are read, each into a
// list of its own; what their lists name is marked; and the fragments that stay are copied. Each reading is `read` itself, so that the
// table is checked and noted once more for each stream: up to seventeen times in a call.
#![tactic(auto)]

ghost use Rattle.std.specs.Prelude.{◌≡◌, ◌≤◌, min, length, get_or, replicate};
ghost use Rattle.rules.specs.Limits.{table_limit};
ghost use Rattle.rules.specs.Place.{byte_length};
ghost use Rattle.rules.specs.Parse.{checked};
ghost use Rattle.rules.specs.Read.{read_all, list_after};
ghost use Rattle.rules.specs.Bundle.{fitted, bundle_readings, bundle_answer, bundle_of, lists_after, buffer_after};
ghost use Rattle.class_layout.specs.Sizes.{Sized};
ghost use Rattle.class_lookup.specs.Index.{places, Hints};
ghost use Rattle.bundle_table.specs.Kept.{kept};
ghost use Rattle.bundle_marks.specs.Marked.{mark_list, mark_all};
ghost use Rattle.bundle.specs.Did.{lists_read, BundleDid};

use bundle_marks::mark;
use bundle_table::{copy_kept, kept_length};
use check_table::check;
use class_lookup::{PLACES, make_index};
use class_notes::prepare;
use numbers::limits;
use reader::read;
use rules::{ByteLength, NoBundle};

// Cuts a table to what some streams need. The streams stand one behind another, as long as `lengths` says, and their lists, as long as
// `rooms` says; where a length is above what is left, it is what is left, and a stream without a room has a list of no words. The lists
// hold the readings afterwards, and the buffer is written only if what stays of the table fits it.
pub fn bundle(
    table: &[u8],
    streams: &[u8],
    lengths: &[u64],
    rooms: &[u64],
    list: &mut [u64],
    out: &mut [u8],
) -> Result<ByteLength, NoBundle>
    ensures { (result
        ≡ bundle_answer table.now streams.now lengths.now rooms.now list.old
        (length out.old))
        × (list.new
        ≡ lists_after result
        (bundle_readings table.now streams.now lengths.now rooms.now list.old)
        rooms.now list.old)
        × (out.new
        ≡ buffer_after result
        (bundle_of table.now
        (bundle_readings table.now streams.now lengths.now rooms.now list.old))
        out.old) }
{
    match check(table) {
        Err(fault) => Err(NoBundle::Table(fault)),
        Ok(_) => bundle_by(table, streams, lengths, rooms, list, out),
    }
}

// By an accepted table: 44, and then the readings and what stays.
fn bundle_by(
    table: &[u8],
    streams: &[u8],
    lengths: &[u64],
    rooms: &[u64],
    list: &mut [u64],
    out: &mut [u8],
) -> Result<ByteLength, NoBundle>
    requires { checked table.now ≡ Ok (byte_length (length table.now)) }
    ensures { BundleDid table.now streams.now lengths.now rooms.now list.old
        out.old result list.new out.new }
{
    let too_many = limits::BUNDLE_LIMIT < lengths.len();
    if too_many {
        return Err(NoBundle::TooManyStreams);
    }
    let mut sizes = [0; limits::TABLE_LIMIT];
    note_sizes(table, &mut sizes);
    let mut index = [0; PLACES];
    make_index(table, &sizes, &mut index);
    let mut marks = [0; limits::TABLE_LIMIT];
    read_streams(
        table, &sizes, &index, streams, lengths, rooms, list, &mut marks,
    );
    write_kept(table, &sizes, &marks, out)
}

// The sizes of an accepted table's classes and fragments. Alignments are noted beside them, and nobody asks for them here.
fn note_sizes(table: &[u8], sizes: &mut [u16])
    requires { (checked table.now ≡ Ok (byte_length (length table.now))) × (table_limit ≤ length sizes.old) }
    ensures { Sized table.now sizes.new }
{
    let mut aligns = [0; limits::TABLE_LIMIT];
    prepare(table, sizes, &mut aligns);
}

// Reads the streams, each into its own part of the list, and marks what their lists name.
fn read_streams(
    table: &[u8],
    sizes: &[u16],
    index: &[u32],
    streams: &[u8],
    lengths: &[u64],
    rooms: &[u64],
    list: &mut [u64],
    marks: &mut [u8],
)
    requires { (Sized table.now sizes.now) × (Hints table.now index.now) × (table_limit ≤ length marks.old) }
    ensures { (list.new
        ≡ lists_read
        (bundle_readings table.now streams.now lengths.now rooms.now list.old)
        rooms.now list.old)
        × (marks.new
        ≡ mark_all table.now
        (bundle_readings table.now streams.now lengths.now rooms.now list.old)
        marks.old) }
{
    let mut from = 0;
    let mut at = 0;
    // by an index: lengths and rooms come side by side from C, and rooms may be fewer
    for i in 0..lengths.len() {
        let bytes = fitting(lengths, i, streams.len() - from);
        let words = fitting(rooms, i, list.len() - at);
        let to = from + bytes;
        let end = at + words;
        read_one(
            table,
            sizes,
            index,
            &streams[from..to],
            &mut list[at..end],
            marks,
        );
        from = to;
        at = end;
    }
}

// How much of what is left one of these lengths takes; one that is not there takes nothing.
fn fitting(lengths: &[u64], i: usize, left: usize) -> usize
    ensures { result ≡ min (get_or lengths.now i 0) left }
{
    let length = lengths.get(i).copied().unwrap_or(0);
    length.min(left as u64) as usize
}

// Reads one stream, and marks what its list names.
fn read_one(
    table: &[u8],
    sizes: &[u16],
    index: &[u32],
    stream: &[u8],
    list: &mut [u64],
    marks: &mut [u8],
)
    requires { (Sized table.now sizes.now) × (Hints table.now index.now) × (table_limit ≤ length marks.old) }
    ensures { (list.new ≡ list_after (read_all table.now stream.now (length list.old)) list.old)
        × (marks.new
        ≡ mark_list table.now 0 (read_all table.now stream.now (length list.old)).entries
        marks.old) }
{
    let result = read(table, stream, list);
    mark(table, sizes, index, list, result.entries, marks);
}

// 45, or what stays of the table.
fn write_kept(
    table: &[u8],
    sizes: &[u16],
    marks: &[u8],
    out: &mut [u8],
) -> Result<ByteLength, NoBundle>
    requires { (Sized table.now sizes.now) × (length marks.now ≡ table_limit) }
    ensures { (result ≡ fitted (kept table.now marks.now) (length out.old))
        × (out.new ≡ buffer_after result (kept table.now marks.now) out.old) }
{
    let length = kept_length(table, sizes, marks);
    if out.len() < length {
        return Err(NoBundle::ShortBuffer(ByteLength(length)));
    }
    copy_kept(table, sizes, marks, out);
    Ok(ByteLength(length))
}
