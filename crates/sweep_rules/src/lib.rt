// The rules of a sweep: the run over the rules of card and reader, the fields that a sweep takes, its call, and demand 3 with its proof.
// This crate has definitions and proofs; the code stands in crate sweep.
#![tactic(auto)]
