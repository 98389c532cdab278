// Document 01, "The card" and "RATS, ATS and blocks": the whole card, every state. `whole` has its calls.
#![tactic(auto)]

pub mod whole;

use block::Told;
use card::Card;
use card_blocks::CardLink;

// A card with its end of the block protocol. Outside Protocol the link is that of no card, the same value always.
#[derive(Clone, Copy)]
pub struct LinkCard {
    pub card: Card,
    pub link: CardLink,
}

// What comes of a frame or a host call: so many air bits at the front of the lent row (none: silence), and what the host is told.
#[derive(Clone, Copy)]
pub struct CardTurn {
    pub card: LinkCard,
    pub bits: usize,
    pub told: Told,
}
