// The demands (R12) as statements about the node, with their proofs: no function.
#![tactic(auto)]
