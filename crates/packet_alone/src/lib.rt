// Packets stand on their own: a packet's step over the same bytes at two places, and an accepted stream without one of its packets. The laws
// stand in proofs/; there is no code.
#![tactic(auto)]
