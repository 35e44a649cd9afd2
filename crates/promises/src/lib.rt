// What is promised, and proved: the statements stand in specs/, their proofs in proofs/.
#![tactic(auto)]

use rules::Report;

// What two readings answer.
#[derive(Clone, Copy)]
pub struct Both {
    pub first: Report,
    pub second: Report,
}
