// Laws of every field's reading, and of two readings beside each other, which code and promises alike rest on. They stand in proofs/, and
// what they say of entries and places in specs/; there is no code.
#![tactic(auto)]
