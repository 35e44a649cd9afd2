// What is seen of a leaf that is a number, kinds 16 to 22, once it is found or refused. In fixed: those that stand in so many bits; in leb:
// LEB128.
#![tactic(auto)]

pub mod fixed;
pub mod leb;
