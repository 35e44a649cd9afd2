// A clock's value in seconds.
ghost use Rattle.std.specs.Prelude.{◌≡◌, ◌+◌, ◌*◌, ◌/◌, ◌%◌, ◌<◌, ◌≤◌, length};
ghost use Rattle.std.proofs.lemmas.List.Edits.{sets};
ghost use Rattle.screen_meaning.specs.Seconds.{seconds, nanos as Seconds·nanos};

use screen_number::{put_bytes, put_decimal, put_zeros};

// Whole seconds and nine digits, cut, of a clock of so many turns a second; nothing of a clock of none.
pub fn put_seconds(out: &mut [u8], at: usize, frequency: u64, clock: u64) -> usize
    requires { at + 96 ≤ length out.old }
    ensures value { result ≡ at + length (seconds frequency clock) }
    ensures out_after { out.new ≡ sets out.old at (seconds frequency clock) }
{
    if frequency == 0 {
        return at;
    }
    let cut = nanos(frequency, clock % frequency);
    let a = put_decimal(out, at, clock / frequency);
    let b = put_bytes(out, a, b".");
    let c = put_zeros(out, b, 9, cut);
    put_bytes(out, c, b" s")
}

// Of a part of a second, in turns, nine digits: a digit is how often the frequency goes into ten times what is left.
fn nanos(frequency: u64, part: u64) -> u64
    requires { part < frequency }
    ensures { result ≡ part * 1000000000 / frequency }
{
    let mut left = part;
    let mut found: u64 = 0;
    for _digit in 0..9usize {
        let next = tenfold(frequency, left);
        found = found * 10 + next.whole;
        left = next.left;
    }
    found
}

// How often the frequency goes into ten times a part, and what is left. Ten times the part may need more than 64 bits; added up turn by
// turn it is kept below the frequency.
#[derive(Clone, Copy)]
struct Digit {
    whole: u64,
    left: u64,
}

fn tenfold(frequency: u64, part: u64) -> Digit
    requires { part < frequency }
    ensures { (result.whole ≡ part * 10 / frequency) × (result.left ≡ part * 10 % frequency) }
{
    let lacking = frequency - part;
    let mut whole: u64 = 0;
    let mut left: u64 = 0;
    for _turn in 0..10usize {
        if lacking <= left {
            left -= lacking;
            whole += 1;
        } else {
            left += part;
        }
    }
    Digit { whole, left }
}
