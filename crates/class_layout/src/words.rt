// The word that is noted of a class: its alignment's exponent; what the class sets with all that it holds, in a number: 0 where no slot,
// i + 1 where just the slot i, SEVERAL where more than one; and its record's number within its fragment. So a reading tells in one step
// what is forgotten around an array's element, and which field it was. Packed, and no struct: memory is fixed, with one word for each byte
// of the longest table.
ghost use Rattle.std.specs.Prelude.{◌≡◌, ◌<◌};
ghost use Rattle.class_layout.specs.Words.{align_of_word, sets_of_word, number_of_word, word_of, numbered_word, sets_one, sets_both};

use numbers::limits;
use table_bytes::wide;

pub const SEVERAL: usize = 256;

// The exponents 0 to 6 stand in three bits, what is set in thirteen, and numbers behind these.
const EXPONENTS: u32 = 8;

const SETTINGS: u32 = 8192;

const BELOW_NUMBERS: u32 = EXPONENTS * SETTINGS;

pub fn align_of(word: u32) -> u64
    ensures { (result ≡ align_of_word word) × (result < 8) }
{
    (word % EXPONENTS) as u64
}

pub fn sets_of(word: u32) -> usize
    ensures { (result ≡ sets_of_word word) × (result < 8192) }
{
    (word / EXPONENTS % SETTINGS) as usize
}

pub fn number_of(word: u32) -> u64
    ensures { (result ≡ number_of_word word) × (result < 65536) }
{
    (word / BELOW_NUMBERS) as u64
}

// The word of a class whose number is not noted yet.
pub fn word_of(align: u64, sets: usize) -> u32
    requires { sets < 8192 }
    ensures { result ≡ word_of align sets }
{
    (align % 8) as u32 + EXPONENTS * sets as u32
}

pub fn with_number(word: u32, number: usize) -> u32
    requires { number < 65536 }
    ensures { result ≡ numbered_word word number }
{
    word % BELOW_NUMBERS + BELOW_NUMBERS * number as u32
}

// What a record sets that names a slot.
pub fn sets_one(slot: u8) -> usize
    ensures { (result ≡ sets_one slot) × (result < 8192) }
{
    if slot == limits::NO_SLOT {
        return 0;
    }
    wide(slot) + 1
}

// What two classes set.
pub fn sets_both(a: usize, b: usize) -> usize
    requires { (a < 8192) × (b < 8192) }
    ensures { (result ≡ sets_both a b) × (result < 8192) }
{
    if a == 0 {
        return b;
    }
    if b == 0 {
        return a;
    }
    if a == b {
        return a;
    }
    SEVERAL
}
