// The kinds of entries ("The list"): 1 to 7, and the kind of its class for a field's.
use crate::kinds;

pub const PACKET_STARTS: u64 = 1;

pub const STREAM_CLASS_FOUND: u64 = 2;

pub const LENGTHS_SETTLED: u64 = 3;

pub const EVENT_STARTS: u64 = 4;

pub const EVENT_CLASS_FOUND: u64 = 5;

pub const CLOCK_ADVANCED: u64 = 6;

pub const PACKET_ENDS: u64 = 7;

pub const BIT_ARRAY: u64 = kinds::BIT_ARRAY as u64;

pub const BOOLEAN: u64 = kinds::BOOLEAN as u64;

pub const UNSIGNED: u64 = kinds::UNSIGNED as u64;

pub const SIGNED: u64 = kinds::SIGNED as u64;

pub const FLOAT: u64 = kinds::FLOAT as u64;

pub const LEB128_UNSIGNED: u64 = kinds::LEB128_UNSIGNED as u64;

pub const LEB128_SIGNED: u64 = kinds::LEB128_SIGNED as u64;
