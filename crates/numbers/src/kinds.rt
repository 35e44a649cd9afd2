// The kinds of records ("The class table"); 16 to 32 are classes, and an entry of a field has its class's kind ("The list").
pub const PREAMBLE: u8 = 1;

pub const TRACE_CLASS: u8 = 2;

pub const CLOCK_CLASS: u8 = 3;

pub const STREAM_CLASS: u8 = 4;

pub const EVENT_CLASS: u8 = 5;

pub const ROOT: u8 = 6;

pub const BIT_ARRAY: u8 = 16;

pub const BOOLEAN: u8 = 17;

pub const UNSIGNED: u8 = 18;

pub const SIGNED: u8 = 19;

pub const FLOAT: u8 = 20;

pub const LEB128_UNSIGNED: u8 = 21;

pub const LEB128_SIGNED: u8 = 22;

pub const NULL_TERMINATED_STRING: u8 = 23;

pub const STATIC_STRING: u8 = 24;

pub const STATIC_BLOB: u8 = 25;

pub const DYNAMIC_STRING: u8 = 26;

pub const DYNAMIC_BLOB: u8 = 27;

pub const STRUCTURE: u8 = 28;

pub const STATIC_ARRAY: u8 = 29;

pub const DYNAMIC_ARRAY: u8 = 30;

pub const OPTIONAL: u8 = 31;

pub const VARIANT: u8 = 32;

pub const RANGE: u8 = 33;

pub const OPTION: u8 = 34;

// The first of the classes, and the last.
pub const FIRST_CLASS: u8 = BIT_ARRAY;

pub const LAST_CLASS: u8 = VARIANT;

// Kinds 16 to 20 say their alignment; kinds 21 to 27 stand at whole bytes; kinds 28 to 32 hold fields.
pub const FIRST_OF_BYTES: u8 = LEB128_UNSIGNED;

pub const FIRST_THAT_HOLDS: u8 = STRUCTURE;

pub const LAST_KIND: u8 = OPTION;
