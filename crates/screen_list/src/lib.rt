// All lines of a list, laid one behind another into room that the caller lends, as many pieces as fit. A mark says how far they are
// written: the next call goes on from there, until the end. An entry's words are read once a call, and the table at entry 2 alone.
#![tactic(auto)]

ghost use Rattle.std.specs.Prelude.{◌≡◌, ◌+◌, ◌-◌, ◌/◌, ◌≤◌, ◌<◌, length};
ghost use Rattle.std.proofs.lemmas.List.Edits.{sets};
ghost use Rattle.rules.specs.Limits.{words_per_entry};
ghost use Rattle.screen_head.specs.Head.{five_of};
ghost use Rattle.screen_line.specs.Pieces.{piece as Pieces·piece};
ghost use Rattle.screen_list.specs.Lines.{entries_in, entry_at, settled};
ghost use Rattle.screen_list.specs.Rest.{first_mark};
ghost use Rattle.screen_list.specs.Fill.{laid_to, laid_text, put_to, put_text, filled, written};

use numbers::entries::STREAM_CLASS_FOUND;
use numbers::limits::WORDS_PER_ENTRY;
use rules::{BitPlace, Entry};
use screen_clock::frequency_of;
use screen_line::{pieces, put_piece};

// The room that every piece of a line fits in.
const PIECE_ROOM: usize = 256;

// The piece that comes next: its entry, its number among the entry's pieces, and the clock's frequency as it was in front of the entry.
#[derive(Clone, Copy)]
pub struct Mark {
    pub entry: usize,
    pub piece: usize,
    pub frequency: u64,
}

// How far a call came, how many bytes it wrote, and whether nothing is left. Where something is, less than a piece's room was left. The
// flag goes beside the mark: both are there either way, and `Goes` speaks of both.
#[derive(Clone, Copy)]
pub struct Filled {
    pub mark: Mark,
    pub used: usize,
    pub done: bool,
}

// Before the first line.
pub fn first() -> Mark
    ensures { result ≡ first_mark }
{
    Mark {
        entry: 0,
        piece: 0,
        frequency: 0,
    }
}

// Goes on from a mark with the lines of the entries that the list begins with, so many, or as many as its words are. A piece is laid while
// the room has 256 bytes left.
pub fn fill(
    out: &mut [u8],
    table: &[u8],
    stream: &[u8],
    list: &[u64],
    entries: usize,
    mark: Mark,
) -> Filled
    ensures value { result ≡ filled table.now stream.now list.now entries (length out.old) mark }
    ensures out_after { out.new ≡ sets out.old 0
        (written table.now stream.now list.now entries (length out.old) mark) }
{
    let count = entries_in(list, entries);
    let mut piece = mark.piece;
    let mut frequency = mark.frequency;
    let mut used = 0;
    for at in mark.entry..count {
        let put = put_entry(out, used, table, stream, list, at, piece, frequency);
        used = put.used;
        if !put.whole {
            let next = Mark {
                entry: at,
                piece: put.piece,
                frequency: frequency,
            };
            return Filled {
                mark: next,
                used: used,
                done: false,
            };
        }
        frequency = put.frequency;
        piece = 0;
    }
    let end = Mark {
        entry: mark.entry.max(count),
        piece: piece,
        frequency: frequency,
    };
    Filled {
        mark: end,
        used: used,
        done: true,
    }
}

fn entries_in(list: &[u64], entries: usize) -> usize
    ensures { result ≡ entries_in (length list.now) entries }
{
    let all = list.len() / WORDS_PER_ENTRY;
    if all < entries {
        return all;
    }
    entries
}

// What was put of an entry's line: the piece that it came to, the end of what is used, the frequency behind the entry, and whether it was
// the whole line. The others are there either way (`put_to`).
#[derive(Clone, Copy)]
struct Put {
    piece: usize,
    used: usize,
    frequency: u64,
    whole: bool,
}

// The line of an entry of the list, from one of its pieces on.
fn put_entry(
    out: &mut [u8],
    used: usize,
    table: &[u8],
    stream: &[u8],
    list: &[u64],
    at: usize,
    piece: usize,
    frequency: u64,
) -> Put
    requires { (used ≤ length out.old) × (at < length list.now / words_per_entry) }
    ensures value { result ≡ put_to table.now stream.now (entry_at list.now at)
        (length out.old) used piece frequency }
    ensures out_after { out.new ≡ sets out.old used
        (put_text table.now stream.now (entry_at list.now at)
        (length out.old) used piece frequency) }
{
    let from = at * WORDS_PER_ENTRY;
    let entry = Entry {
        kind: list[from],
        place: BitPlace(list[from + 1]),
        bits: list[from + 2],
        value: list[from + 3],
        number: list[from + 4],
    };
    let turns = settle(table, frequency, entry);
    let count = pieces(stream, entry);
    let laid = put_pieces(out, used, stream, turns, entry, piece, count);
    Put {
        piece: laid.piece,
        used: laid.used,
        frequency: turns,
        whole: count <= laid.piece,
    }
}

// "stream-class" settles the clock of what follows.
fn settle(table: &[u8], frequency: u64, entry: Entry) -> u64
    ensures { result ≡ settled table.now frequency (five_of entry) }
{
    if entry.kind == STREAM_CLASS_FOUND {
        return frequency_of(table, entry.value);
    }
    frequency
}

#[derive(Clone, Copy)]
struct Reached {
    piece: usize,
    used: usize,
}

// The pieces of a line from one of them on, of so many.
fn put_pieces(
    out: &mut [u8],
    used: usize,
    stream: &[u8],
    frequency: u64,
    entry: Entry,
    piece: usize,
    count: usize,
) -> Reached
    requires { used ≤ length out.old }
    ensures piece_value { (result.piece ≡ laid_to (count - piece) stream.now frequency (five_of entry) (length out.old) used piece)
        × (result.used ≡ used + length (laid_text (count - piece) stream.now frequency (five_of entry) (length out.old) used piece)) }
    ensures out_after { out.new ≡ sets out.old used
        (laid_text (count - piece) stream.now frequency (five_of entry) (length out.old) used piece) }
{
    let mut end = used;
    for i in piece..count {
        if out.len() - end < PIECE_ROOM {
            return Reached {
                piece: i,
                used: end,
            };
        }
        end = put_at(out, end, stream, frequency, entry, i);
    }
    Reached {
        piece: piece.max(count),
        used: end,
    }
}

// A piece behind what is used; answers where it ends.
fn put_at(
    out: &mut [u8],
    used: usize,
    stream: &[u8],
    frequency: u64,
    entry: Entry,
    i: usize,
) -> usize
    requires { used + 256 ≤ length out.old }
    ensures value { result ≡ used + length (Pieces·piece stream.now frequency (five_of entry) i) }
    ensures out_after { out.new ≡ sets out.old used (Pieces·piece stream.now frequency (five_of entry) i) }
{
    let more = put_piece(&mut out[used..], stream, frequency, entry, i);
    used + more
}
