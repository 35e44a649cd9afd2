// Laws of numbers, lists, tests, steps and lent words that no one crate owns. They stand in proofs/; there is no code.
#![tactic(auto)]
