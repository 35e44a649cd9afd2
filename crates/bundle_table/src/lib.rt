// What stays of a table by marks: its preamble, and behind it, in the table's order, the fragments that are marked and those that are
// neither a stream class nor an event class (specs/Kept). How many bytes that is, and a copy of them: a caller asks first, and lends a
// buffer only where it is large enough. A mark is a byte that is not 0, at the byte of the table where its fragment opens, so that nothing
// is searched for; `leave` of the rules goes by ids, and proofs/Leave says that it is the same.
#![tactic(auto)]

ghost use Rattle.std.specs.Prelude.{◌≡◌, ◌+◌, ◌≤◌, ◌<◌, length, take, drop};
ghost use Rattle.std.proofs.Math.Seq.{paste};
ghost use Rattle.class_layout.specs.Sizes.{Sized, SizedFragment};
ghost use Rattle.bundle_table.specs.Kept.{stood, kept_one, kept, in_front};

use class_layout::walk::fragments;
use numbers::kinds;
use table_bytes::size_at;
use table_records::bodies::PREAMBLE_SIZE;

// How many bytes stay.
pub fn kept_length(table: &[u8], sizes: &[u16], marks: &[u8]) -> usize
    requires { (Sized table.now sizes.now) × (length marks.now ≡ 65536) }
    ensures { result ≡ length (kept table.now marks.now) }
{
    let mut count = preamble_size(table);
    for at in fragments(table, sizes) {
        count = count + kept_size(table, sizes, marks, at);
    }
    count
}

// Puts what stays into a buffer, from its front; the bytes behind it stay as they came.
pub fn copy_kept(table: &[u8], sizes: &[u16], marks: &[u8], out: &mut [u8])
    requires { (Sized table.now sizes.now) × (length marks.now ≡ 65536)
        × (length (kept table.now marks.now) ≤ length out.old) }
    ensures { out.new ≡ in_front (kept table.now marks.now) out.old }
{
    let mut to = preamble_size(table);
    copy(table, 0, to, out, 0);
    for at in fragments(table, sizes) {
        let size = kept_size(table, sizes, marks, at);
        copy(table, at, size, out, to);
        to = to + size;
    }
}

// The preamble's bytes, as far as they are there.
fn preamble_size(table: &[u8]) -> usize
    ensures { result ≡ length (take 2 table.now) }
{
    table.len().min(PREAMBLE_SIZE)
}

// How many bytes of a fragment stay: all, or none.
fn kept_size(table: &[u8], sizes: &[u16], marks: &[u8], fragment: usize) -> usize
    requires { (Sized table.now sizes.now) × (SizedFragment table.now sizes.now fragment) × (length marks.now ≡ 65536) }
    ensures { result ≡ length (kept_one table.now marks.now fragment) }
{
    if stays(table, marks, fragment) {
        return size_at(sizes, fragment);
    }
    0
}

fn stays(table: &[u8], marks: &[u8], fragment: usize) -> bool
    requires { (fragment < length table.now) × (fragment < length marks.now) }
    ensures { result ≡ stood table.now marks.now fragment }
{
    match table[fragment] {
        kinds::STREAM_CLASS | kinds::EVENT_CLASS => 0 < marks[fragment],
        _ => true,
    }
}

// Puts so many bytes of a table, from one on, into a buffer.
fn copy(table: &[u8], from: usize, size: usize, out: &mut [u8], to: usize)
    requires { (from + size ≤ length table.now) × (to + size ≤ length out.old) }
    ensures { out.new ≡ paste out.old to (drop from table.now) size }
{
    // no copy_from_slice: it needs memmove from outside
    for i in 0..size {
        out[to + i] = table[from + i];
    }
}
