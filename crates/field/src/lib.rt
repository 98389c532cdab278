// Document 01, "Frames on the air" and "The reader and the sweep": the cards of a field, by value, and what is heard where they answer
// together.
#![tactic(auto)]

// One frame taken by every card of a field. Only the crates of this repository call it.
pub mod within;
