// The roots of a packet and of an event ("The class table").
pub const PACKET_HEADER: u8 = 0;

pub const PACKET_CONTEXT: u8 = 1;

pub const EVENT_HEADER: u8 = 2;

pub const SPECIFIC_CONTEXT: u8 = 4;

// How many there are.
pub const ROOTS: u8 = 6;
