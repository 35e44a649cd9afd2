// What is shown of a kind behind its numbers, by its sort, and the meaning of what is no text.
ghost use Rattle.std.specs.Prelude.{◌≡◌, ◌+◌, ◌≤◌, length};
ghost use Rattle.std.proofs.lemmas.List.Edits.{sets};
ghost use Rattle.screen_head.specs.Head.{five_of};
ghost use Rattle.screen_line.specs.Line.{clock_meaning, blob_meaning, bytes_of};
ghost use Rattle.screen_line.specs.Pieces.{sort_of_kind};
ghost use Rattle.screen_line.specs.Sorts.{number_of, short_meaning};

use crate::shown::{bytes_of, from_of};
use rules::Entry;
use screen_meaning::{put_bit_array, put_blob, put_float, put_seconds};
use screen_number::put_bytes;

// What stands behind the numbers of an entry.
#[derive(Clone, Copy)]
pub(crate) enum Sort {
    Nothing,
    Hex,
    Float,
    Seconds,
    Text,
    Bytes,
}

#[tactic(auto, unfolding(crate::specs::Sorts::sorts))]
pub(crate) fn sort_of(kind: u64) -> Sort
    ensures { number_of result ≡ sort_of_kind kind }
{
    match kind {
        6 => Sort::Seconds,
        16 => Sort::Hex,
        20 => Sort::Float,
        23 => Sort::Text,
        24 => Sort::Text,
        25 => Sort::Bytes,
        26 => Sort::Text,
        27 => Sort::Bytes,
        _ => Sort::Nothing,
    }
}

// What an entry means, behind two blanks; a text has pieces of its own.
pub(crate) fn put_meaning(
    out: &mut [u8],
    at: usize,
    stream: &[u8],
    frequency: u64,
    sort: Sort,
    entry: Entry,
) -> usize
    requires { at + 98 ≤ length out.old }
    ensures value { result ≡ at + length (short_meaning (number_of sort) stream.now frequency (five_of entry)) }
    ensures out_after { out.new ≡ sets out.old at (short_meaning (number_of sort) stream.now frequency (five_of entry)) }
{
    match sort {
        Sort::Nothing => at,
        Sort::Hex => {
            let a = put_bytes(out, at, b"  ");
            put_bit_array(out, a, entry.bits, entry.value)
        }
        Sort::Float => {
            let b = put_bytes(out, at, b"  ");
            put_float(out, b, entry.bits, entry.value)
        }
        Sort::Seconds => put_clock(out, at, frequency, entry.value),
        Sort::Text => at,
        Sort::Bytes => put_bytes_meant(out, at, stream, entry),
    }
}

fn put_clock(out: &mut [u8], at: usize, frequency: u64, clock: u64) -> usize
    requires { at + 98 ≤ length out.old }
    ensures value { result ≡ at + length (clock_meaning frequency clock) }
    ensures out_after { out.new ≡ sets out.old at (clock_meaning frequency clock) }
{
    if frequency == 0 {
        return at;
    }
    let a = put_bytes(out, at, b"  ");
    put_seconds(out, a, frequency, clock)
}

fn put_bytes_meant(out: &mut [u8], at: usize, stream: &[u8], entry: Entry) -> usize
    requires { at + 98 ≤ length out.old }
    ensures value { result ≡ at + length (blob_meaning (bytes_of stream.now (five_of entry))) }
    ensures out_after { out.new ≡ sets out.old at (blob_meaning (bytes_of stream.now (five_of entry))) }
{
    let from = from_of(stream, entry.place.0);
    let n = bytes_of(stream, entry.place.0, entry.value);
    if n == 0 {
        return at;
    }
    let a = put_bytes(out, at, b"  ");
    put_blob(out, a, stream, from, n)
}
