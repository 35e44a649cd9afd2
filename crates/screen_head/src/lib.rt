// The head of an entry's line: its five words in their columns, laid into room that the caller lends. A head takes 112 bytes at most.
//
// In kinds: the word of each kind.
#![tactic(auto)]

ghost use Rattle.std.specs.Prelude.{◌≡◌, ◌∷◌, ◌+◌, ◌-◌, ◌≤◌, length};
ghost use Rattle.std.proofs.lemmas.List.Edits.{sets};
ghost use Rattle.screen_number.specs.Number.{decimal, left};
ghost use Rattle.screen_head.specs.Kinds.{row_of, word};
ghost use Rattle.screen_head.specs.Head.{head, five_of, column, value_of_kind, has_sign};

use kinds::put_word;
use numbers::entries;
use rules::Entry;
use screen_number::{put_right, put_signed_right, put_times};

mod kinds;

// The widths of the columns, at least; a longer number moves what follows, and is never cut.
const KIND_WIDTH: usize = 15;

const PLACE_WIDTH: usize = 10;

const BITS_WIDTH: usize = 9;

const VALUE_WIDTH: usize = 21;

const NUMBER_WIDTH: usize = 5;

// Place, bits, value and the number of the class record, each at the right end of its column; the kind's word at the left end.
pub fn put_head(out: &mut [u8], at: usize, entry: Entry) -> usize
    requires { at + 112 ≤ length out.old }
    ensures value { result ≡ at + length (head (five_of entry)) }
    ensures out_after { out.new ≡ sets out.old at (head (five_of entry)) }
{
    let behind_kind = put_kind(out, at, entry.kind);
    let behind_place = put_column(out, behind_kind, PLACE_WIDTH, entry.place.0);
    let behind_bits = put_column(out, behind_place, BITS_WIDTH, entry.bits);
    let behind_value = put_value(out, behind_bits, entry.kind, entry.value);
    put_column(out, behind_value, NUMBER_WIDTH, entry.number)
}

fn put_kind(out: &mut [u8], at: usize, kind: u64) -> usize
    requires { at + 25 ≤ length out.old }
    ensures value { result ≡ at + length (left 15 (word kind)) }
    ensures out_after { out.new ≡ sets out.old at (left 15 (word kind)) }
{
    let end = put_word(out, at, kind);
    let blanks = KIND_WIDTH.saturating_sub(end - at);
    put_times(out, end, blanks, b' ')
}

fn put_column(out: &mut [u8], at: usize, width: usize, n: u64) -> usize
    requires at_in_bounds { at + 21 ≤ length out.old }
    requires width_bound { width ≤ 20 }
    ensures value { result ≡ at + length (column width (decimal n)) }
    ensures out_after { out.new ≡ sets out.old at (column width (decimal n)) }
{
    out[at] = b' ';
    put_right(out, at + 1, width, n)
}

// An integer's value by its sign, any other as it is.
fn put_value(out: &mut [u8], at: usize, kind: u64, value: u64) -> usize
    requires { at + 22 ≤ length out.old }
    ensures value { result ≡ at + length (column 21 (value_of_kind kind value)) }
    ensures out_after { out.new ≡ sets out.old at (column 21 (value_of_kind kind value)) }
{
    out[at] = b' ';
    if has_sign(kind) {
        return put_signed_right(out, at + 1, VALUE_WIDTH, value);
    }
    put_right(out, at + 1, VALUE_WIDTH, value)
}

fn has_sign(kind: u64) -> bool
    ensures { result ≡ has_sign (row_of kind).shows }
{
    if kind == entries::SIGNED {
        return true;
    }
    kind == entries::LEB128_SIGNED
}
