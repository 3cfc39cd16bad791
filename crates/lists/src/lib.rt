// Definitions and laws of lists that several crates cite.
#![tactic(auto)]
