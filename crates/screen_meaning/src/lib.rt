// What an entry's value means, laid into room that the caller lends; it stands behind the entry's numbers and is for people. Nothing of it
// takes more than 96 bytes.
//
// In blob: a bit array and a BLOB in hexadecimal. In seconds: a clock. In float: a float, exact and in decimals. In millionths: its six
// decimals.
#![tactic(auto)]

mod blob;
mod float;
mod millionths;
mod seconds;

pub use blob::{put_bit_array, put_blob};
pub use float::put_float;
pub use seconds::put_seconds;
