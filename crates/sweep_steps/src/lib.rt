// Document 01, "The reader and the sweep": the sweep step by step, over values. `sweep` makes one call of it.
// The fields that a sweep takes.
#![tactic(auto)]

mod terms;

// Functions with conditions on what they are called with. Only the crates of this repository call them.
pub mod within;
