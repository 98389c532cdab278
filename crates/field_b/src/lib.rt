// Document 02, T-05: the cards of a field, by value, each with the slot number that the host hands in.
#![tactic(auto)]

use card_b::CardB;

// One frame taken by every card of a field. Only the crates of this repository call it.
pub mod within;

// A card, and its slot number: "The host hands in slot numbers".
#[derive(Clone, Copy)]
pub struct Drawn {
    pub card: CardB,
    pub number: u8,
}
