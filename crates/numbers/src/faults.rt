// The fifteen numbers that refuse a table ("Refusing a table"). The cases of `table_offsets::Fault` take them from here.
pub const BAD_SIZE: u8 = 1;

pub const UNKNOWN_KIND: u8 = 2;

pub const CUT_SHORT: u8 = 3;

pub const PREAMBLE_MISPLACED: u8 = 4;

pub const WRONG_VERSION: u8 = 5;

pub const TRACE_CLASS_MISPLACED: u8 = 6;

pub const ID_USED: u8 = 7;

pub const ID_UNKNOWN: u8 = 8;

pub const KIND_NOT_ALLOWED: u8 = 9;

pub const NUMBER_OUT_OF_RANGE: u8 = 10;

pub const SLOT_NOT_ALLOWED: u8 = 11;

pub const ROLE_NOT_ALLOWED: u8 = 12;

pub const RANGES_CONTRADICT: u8 = 13;

pub const TOO_DEEP: u8 = 14;

pub const TOO_MANY_FRAGMENTS: u8 = 15;

// "20: table refused" (Reading)
pub const TABLE_REFUSED: u8 = 20;

// "over sixteen streams and a short output buffer (new numbers)" (02, 14)
pub const TOO_MANY_STREAMS: u8 = 44;

pub const SHORT_BUFFER: u8 = 45;
