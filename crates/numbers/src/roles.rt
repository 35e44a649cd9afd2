// "Roles: .. 0 none" (The class table)
pub const NO_ROLE: u8 = 0;

pub const MAGIC: u8 = 1;

pub const STREAM_CLASS_ID: u8 = 2;

pub const STREAM_ID: u8 = 3;

pub const UUID: u8 = 4;

pub const TOTAL_LENGTH: u8 = 5;

pub const CONTENT_LENGTH: u8 = 6;

pub const CLOCK: u8 = 7;

pub const END_CLOCK: u8 = 8;

pub const DISCARDED_COUNT: u8 = 9;

pub const SEQUENCE_NUMBER: u8 = 10;

pub const EVENT_CLASS_ID: u8 = 11;

pub const LAST_ROLE: u8 = EVENT_CLASS_ID;
