// The papers' limits on a table and on a stream, the numbers that stand for none, the words of an entry, and the magic number.

// "empty, or over 65,536 bytes" (Refusing a table)
pub const TABLE_LIMIT: usize = 65_536;

// "over 512 fragments of kinds 3, 4, 5" (Refusing a table)
pub const FRAGMENT_LIMIT: usize = 512;

// "to depth 8, the root structure being depth 1" (The class table)
pub const DEPTH_LIMIT: usize = 8;

// "members 0 to 64" (The class table)
pub const MEMBER_LIMIT: usize = 64;

// "options 1 to 32" (The class table)
pub const OPTION_LIMIT: usize = 32;

// "ranges 1 to 16" (The class table)
pub const RANGE_LIMIT: u8 = 16;

// "there are sixty-four slots", "Slots 0 to 15 are set by packet roots (0, 1), 16 to 63 by event roots" (The class table)
pub const LAST_PACKET_SLOT: u8 = 15;

pub const FIRST_EVENT_SLOT: u8 = 16;

pub const LAST_SLOT: u8 = 63;

// "slot 64 to 254" is outside the range; "255 means none where a slot is set" (Refusing a table; The class table)
pub const FIRST_SLOT_OUT: u8 = 64;

pub const LAST_SLOT_OUT: u8 = 254;

pub const NO_SLOT: u8 = 255;

pub const NO_SLOT_READ: usize = NO_SLOT as usize;

// "clock id, 255 none" (The class table)
pub const NO_CLOCK: u8 = 255;

// The bytes of a UUID.
pub const UUID_BYTES: usize = 16;

// "stream empty or over 536,870,911 bytes" (21)
pub const STREAM_LIMIT: usize = 536_870_911;

// "A length needs an unsigned number", of 65,535 at most (28)
pub const LENGTH_LIMIT: u64 = 65_535;

// "Lent 64-bit words, four an entry" (The list); "Each entry grows to five words" (02, 7)
pub const WORDS_PER_ENTRY: usize = 5;

// "up to sixteen streams" (02, 14)
pub const BUNDLE_LIMIT: usize = 16;

// "validate that V is 0xc1fc1fc1" (000 6.1)
pub const MAGIC_NUMBER: u64 = 0xC1FC_1FC1;
