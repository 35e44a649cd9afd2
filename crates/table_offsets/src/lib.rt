// The check of a class table by offsets, as the code walks: its definition (specs/Check) and its law, that it is the rules' own answer but
// for the homes of slots (proofs/TieCheck), and beside the walk over these the whole answer (proofs/Earlier). Here are the types that the
// definition shares with the code.
#![tactic(auto)]

pub use faults::{Fault, FaultAt};

pub mod faults;

// Under what a class stands: its root, whether its stream class has a clock and its trace class a UUID, and the root structure's byte.
#[derive(Clone, Copy)]
pub struct Under {
    pub root: u8,
    pub timed: bool,
    pub uuid: bool,
    pub start: usize,
}

// What a class record says. What its kind leaves out is as it does no harm.
#[derive(Clone, Copy)]
pub struct Says {
    pub kind: u8,
    pub length: u8,
    pub order: u8,
    pub align: u8,
    pub sets: u8,
    pub reads: u8,
    pub role: u8,
    pub count: usize,
}
