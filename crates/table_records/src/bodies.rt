// "Each record is one byte of kind, then a body whose length the kind fixes" (The class table): a constant table of body lengths by
// kind, and what it says.
ghost use Rattle.std.specs.Prelude.{◌≡◌};
ghost use Rattle.table_offsets.specs.Bodies.{body_mark, body_of};

use numbers::kinds;
use numbers::kinds::LAST_KIND;

// Stands in the table where there is no such kind: a row is a byte, and the definition (`body_mark`) has this mark.
pub const NO_KIND: u8 = 255;

// By kind, 0 to 34.
const BODY_LENGTHS: [u8; LAST_KIND as usize + 1] = [
    NO_KIND, // 0
    1, // 1 preamble
    17, // 2 trace class
    9, // 3 clock class
    9, // 4 stream class
    16, // 5 event class
    1, // 6 root
    NO_KIND, // 7
    NO_KIND, // 8
    NO_KIND, // 9
    NO_KIND, // 10
    NO_KIND, // 11
    NO_KIND, // 12
    NO_KIND, // 13
    NO_KIND, // 14
    NO_KIND, // 15
    3, // 16 bit array
    4, // 17 boolean
    5, // 18 unsigned
    4, // 19 signed
    3, // 20 float
    2, // 21 LEB128 unsigned
    1, // 22 LEB128 signed
    0, // 23 null-terminated string
    2, // 24 static string
    3, // 25 static BLOB
    1, // 26 dynamic string
    1, // 27 dynamic BLOB
    2, // 28 structure
    3, // 29 static array
    2, // 30 dynamic array
    2, // 31 optional
    2, // 32 variant
    17, // 33 range
    1, // 34 option
];

// How many bytes a record takes, its kind and its body, where code goes on behind one.
pub const PREAMBLE_SIZE: usize = 1 + BODY_LENGTHS[kinds::PREAMBLE as usize] as usize;

pub const TRACE_CLASS_SIZE: usize = 1 + BODY_LENGTHS[kinds::TRACE_CLASS as usize] as usize;

pub const CLOCK_CLASS_SIZE: usize = 1 + BODY_LENGTHS[kinds::CLOCK_CLASS as usize] as usize;

pub const STREAM_CLASS_SIZE: usize = 1 + BODY_LENGTHS[kinds::STREAM_CLASS as usize] as usize;

pub const EVENT_CLASS_SIZE: usize = 1 + BODY_LENGTHS[kinds::EVENT_CLASS as usize] as usize;

pub const ROOT_SIZE: usize = 1 + BODY_LENGTHS[kinds::ROOT as usize] as usize;

pub const STRUCTURE_SIZE: usize = 1 + BODY_LENGTHS[kinds::STRUCTURE as usize] as usize;

pub const STATIC_ARRAY_SIZE: usize = 1 + BODY_LENGTHS[kinds::STATIC_ARRAY as usize] as usize;

pub const DYNAMIC_ARRAY_SIZE: usize = 1 + BODY_LENGTHS[kinds::DYNAMIC_ARRAY as usize] as usize;

pub const OPTIONAL_SIZE: usize = 1 + BODY_LENGTHS[kinds::OPTIONAL as usize] as usize;

pub const VARIANT_SIZE: usize = 1 + BODY_LENGTHS[kinds::VARIANT as usize] as usize;

pub const RANGE_SIZE: usize = 1 + BODY_LENGTHS[kinds::RANGE as usize] as usize;

pub const OPTION_SIZE: usize = 1 + BODY_LENGTHS[kinds::OPTION as usize] as usize;

// The body's bytes, or the mark.
pub fn mark_of(kind: u8) -> u8
    ensures { result ≡ body_mark kind }
{
    if LAST_KIND < kind {
        return NO_KIND;
    }
    let place = kind as usize;
    BODY_LENGTHS[place]
}

pub fn body_of(kind: u8) -> Option<usize>
    ensures { result ≡ body_of kind }
{
    let length = mark_of(kind);
    if length == NO_KIND {
        return None;
    }
    Some(length as usize)
}
