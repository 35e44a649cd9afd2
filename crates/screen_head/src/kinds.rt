// The word of each kind.
ghost use Rattle.std.specs.Prelude.{◌≡◌, ◌+◌, ◌≤◌, length, MatchOption};
ghost use Rattle.std.proofs.lemmas.List.Edits.{sets};
ghost use Rattle.screen_head.specs.Kinds.{word, kind_number};

use screen_number::{put_bytes, put_decimal};

pub(crate) fn put_word(out: &mut [u8], at: usize, kind: u64) -> usize
    requires { at + 25 ≤ length out.old }
    ensures value { result ≡ at + length (word kind) }
    ensures out_after { out.new ≡ sets out.old at (word kind) }
{
    match name_of(kind) {
        Some(name) => put_bytes(out, at, name),
        None => put_kind_number(out, at, kind),
    }
}

// The first eight are of no field, 8 is that of a salvage; the last five hold fields.
#[tactic(auto, unfolding(crate::specs::Shown::shown))]
fn name_of(kind: u64) -> Option<&'static [u8]>
    ensures { MatchOption result (word kind ≡ kind_number kind) (λ name. name.now ≡ word kind) }
{
    match kind {
        1 => Some(b"packet"),
        2 => Some(b"stream-class"),
        3 => Some(b"lengths"),
        4 => Some(b"event"),
        5 => Some(b"event-class"),
        6 => Some(b"clock"),
        7 => Some(b"packet-end"),
        8 => Some(b"skipped"),
        16 => Some(b"bit-array"),
        17 => Some(b"boolean"),
        18 => Some(b"unsigned"),
        19 => Some(b"signed"),
        20 => Some(b"float"),
        21 => Some(b"leb128-unsigned"),
        22 => Some(b"leb128-signed"),
        23 => Some(b"string"),
        24 => Some(b"static-string"),
        25 => Some(b"static-blob"),
        26 => Some(b"dynamic-string"),
        27 => Some(b"dynamic-blob"),
        28 => Some(b"structure"),
        29 => Some(b"static-array"),
        30 => Some(b"dynamic-array"),
        31 => Some(b"optional"),
        32 => Some(b"variant"),
        _ => None,
    }
}

// A kind that has no word, by its number.
fn put_kind_number(out: &mut [u8], at: usize, kind: u64) -> usize
    requires { at + 25 ≤ length out.old }
    ensures value { result ≡ at + length (kind_number kind) }
    ensures out_after { out.new ≡ sets out.old at (kind_number kind) }
{
    let end = put_bytes(out, at, b"kind-");
    put_decimal(out, end, kind)
}
