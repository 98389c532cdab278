// T-03, the rules of waking one known card in a field: the run over the rules of card and reader, and the claim on it with its proof.
// This crate has definitions and proofs; the code stands in crates wake and wake_row.
#![tactic(auto)]
