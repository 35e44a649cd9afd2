// Columns of a line.
ghost use Rattle.std.specs.Prelude.{◌≡◌, ◌+◌, ◌-◌, ◌≤◌, length};
ghost use Rattle.std.proofs.lemmas.List.Edits.{sets};
ghost use Rattle.screen_number.specs.Number.{decimal, signed_decimal, right, zeros};

use crate::given::put_times;
use crate::number::{put_decimal, put_signed};

// A number at the right end of its column, which is at least so wide.
pub fn put_right(out: &mut [u8], at: usize, width: usize, n: u64) -> usize
    requires { at + length (right width (decimal n)) ≤ length out.old }
    ensures value { result ≡ at + length (right width (decimal n)) }
    ensures out_after { out.new ≡ sets out.old at (right width (decimal n)) }
{
    let taken = figures(n);
    let blanks = width.saturating_sub(taken);
    let from = put_times(out, at, blanks, b' ');
    put_decimal(out, from, n)
}

// The same of a word in two's complement, with its sign.
pub fn put_signed_right(out: &mut [u8], at: usize, width: usize, word: u64) -> usize
    requires { at + length (right width (signed_decimal word)) ≤ length out.old }
    ensures value { result ≡ at + length (right width (signed_decimal word)) }
    ensures out_after { out.new ≡ sets out.old at (right width (signed_decimal word)) }
{
    let taken = signed_figures(word);
    let free = width.saturating_sub(taken);
    let from = put_times(out, at, free, b' ');
    put_signed(out, from, word)
}

// A number in at least so many digits, zeros in front.
pub fn put_zeros(out: &mut [u8], at: usize, width: usize, n: u64) -> usize
    requires { at + length (zeros width n) ≤ length out.old }
    ensures value { result ≡ at + length (zeros width n) }
    ensures out_after { out.new ≡ sets out.old at (zeros width n) }
{
    let taken = figures(n);
    let missing = width.saturating_sub(taken);
    let behind = put_times(out, at, missing, b'0');
    put_decimal(out, behind, n)
}

// How many digits a number has.
fn figures(n: u64) -> usize
    ensures { result ≡ length (decimal n) }
{
    if n < 10 {
        return 1;
    }
    figures(n / 10) + 1
}

// How many digits a word has, and its sign.
fn signed_figures(word: u64) -> usize
    ensures { result ≡ length (signed_decimal word) }
{
    if word < 0x8000_0000_0000_0000 {
        return figures(word);
    }
    figures(0xFFFF_FFFF_FFFF_FFFF - word + 1) + 1
}
