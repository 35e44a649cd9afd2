// An entry's line in pieces, laid into room that the caller lends: each piece has less than 256 bytes, and in less room than that nothing
// is written. A line that shows no text is one piece; a text has its own, so that its length does not matter.
//
// In meant: what is shown of a kind, and the meaning of what is no text. In shown: a text's pieces.
#![tactic(auto)]

ghost use Rattle.std.specs.Prelude.{◌≡◌, true, false, ◌+◌, ◌-◌, ◌≤◌, ◌<◌, length};
ghost use Rattle.std.proofs.lemmas.List.Edits.{sets};
ghost use Rattle.screen_head.specs.Head.{five, five_of};
ghost use Rattle.screen_verdict.specs.Verdict.{laid_line, laid_length};
ghost use Rattle.screen_line.specs.Line.{line, bytes_of};
ghost use Rattle.screen_line.specs.Pieces.{piece, pieces as Pieces·pieces, is_text, text_piece, sort_of_kind};
ghost use Rattle.screen_line.specs.Sorts.{number_of};

use meant::{Sort, put_meaning, sort_of};
use rules::Entry;
use screen_head::put_head;
use screen_number::put_bytes;
use shown::{bytes_of, from_of, put_text_part};

mod meant;
mod shown;

// The room that every piece fits in.
const PIECE_ROOM: usize = 256;

// Of how many pieces an entry's line is, whatever its bits and its number are.
pub fn pieces(stream: &[u8], entry: Entry) -> usize
    ensures value { result ≡ Pieces·pieces stream.now (five_of entry) }
    ensures by_three { result ≡ Pieces·pieces stream.now (five entry.kind entry.place.0 0 entry.value 0) }
{
    match sort_of(entry.kind) {
        Sort::Text => bytes_of(stream, entry.place.0, entry.value) / 32 + 2,
        _ => 1,
    }
}

// The ith piece of an entry's line. Answers how many bytes were written.
pub fn put_piece(out: &mut [u8], stream: &[u8], frequency: u64, entry: Entry, i: usize) -> usize
    ensures value { result ≡ laid_length out.old (piece stream.now frequency (five_of entry) i) }
    ensures out_after { out.new ≡ laid_line out.old (piece stream.now frequency (five_of entry) i) }
{
    if out.len() < PIECE_ROOM {
        return 0;
    }
    match sort_of(entry.kind) {
        Sort::Text => put_text_piece(out, stream, entry, i),
        sort if i == 0 => put_line(out, stream, frequency, sort, entry),
        _ => 0,
    }
}

// The line of an entry that shows no text.
fn put_line(out: &mut [u8], stream: &[u8], frequency: u64, sort: Sort, entry: Entry) -> usize
    requires in_bounds { 256 ≤ length out.old }
    requires sort_value { (number_of sort ≡ sort_of_kind entry.kind) × (number_of sort ≡ 4 → ⊥) }
    ensures value { result ≡ 0 + length (line stream.now frequency (five_of entry)) }
    ensures out_after { out.new ≡ sets out.old 0 (line stream.now frequency (five_of entry)) }
{
    let a = put_head(out, 0, entry);
    let b = put_meaning(out, a, stream, frequency, sort, entry);
    put_bytes(out, b, b"\n")
}

// A piece of a line that shows a text.
fn put_text_piece(out: &mut [u8], stream: &[u8], entry: Entry, i: usize) -> usize
    requires { 256 ≤ length out.old }
    ensures value { result ≡ 0 + length (text_piece (five_of entry) (bytes_of stream.now (five_of entry)) i) }
    ensures out_after { out.new ≡ sets out.old 0 (text_piece (five_of entry) (bytes_of stream.now (five_of entry)) i) }
{
    if i == 0 {
        let a = put_head(out, 0, entry);
        return put_bytes(out, a, b"  \"");
    }
    put_text_part(
        out,
        stream,
        from_of(stream, entry.place.0),
        bytes_of(stream, entry.place.0, entry.value),
        i - 1,
    )
}
