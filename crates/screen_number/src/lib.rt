// Numbers and columns of a line, laid into room that the caller lends. Each function lays its text from a place on and answers where it
// ends; what it leaves in the room is said by `sets`: the same bytes, with the text over them from that place on. The texts are defined in
// specs/Number. Room and place are two parameters, as each promise names them: `sets out.old at`.
//
// In given: bytes as they are, and so many equal ones. In number: decimal numbers, with and without a sign. In hex: the last digits in
// base 16. In column: columns of a line.
#![tactic(auto)]

mod column;
mod given;
mod hex;
mod number;

pub use column::{put_right, put_signed_right, put_zeros};
pub use given::{put_bytes, put_times};
pub use hex::put_hex;
pub use number::put_decimal;
