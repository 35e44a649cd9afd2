// The frame of every field of a packet: where its packet starts and where its bits must end. The rules' reading goes by the same two
// places; `Framed` (specs/) is what every step of a reading knows of them.
#![tactic(auto)]

use rules::BitPlace;

// The packet's start, and the bound.
#[derive(Clone, Copy)]
pub struct Frame {
    pub start: BitPlace,
    pub bound: BitPlace,
}
