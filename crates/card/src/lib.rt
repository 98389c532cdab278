// Document 01, "The card": one card's states, by value, without blocks. The card for firmware, which takes frames in every state, is that of
// crate card_link; a field of cards that only select takes them by `within::take_rules`.
#![tactic(auto)]

mod answer;
pub mod anticollision;
mod rats;
mod ready;
pub mod within;
mod woken;

ghost use Rattle.std.specs.Prelude.{◌≡◌};
ghost use Rattle.card.specs.Card.{powered, power_on, power_off};
ghost use Rattle.card.specs.Calls.{new_card, new_card_says};
ghost use Rattle.refusal.specs.Refusal.{made_says};

use refusal::Refusal;
use uid::{Level, Uid};

// ReadyStar and ActiveStar are Ready* and Active*, of a card that was woken from Halt (T-03). Protocol holds the reader's size index, from RATS.
#[derive(Clone, Copy)]
pub enum CardState {
    Off,
    Idle,
    Ready(Level),
    Active,
    Halt,
    ReadyStar(Level),
    ActiveStar,
    Protocol(u8),
}

// blocks: it speaks the block protocol; index: its own size index.
#[derive(Clone, Copy)]
pub struct Card {
    pub uid: Uid,
    pub blocks: bool,
    pub index: u8,
    pub state: CardState,
}

// A card after a frame.
#[derive(Clone, Copy)]
pub struct Taken {
    pub card: Card,
    pub answer: Option<usize>,
}

// A card without power. 6: the UID is not valid, or the size index is over 8.
pub fn new_card(bytes: &[u8], blocks: bool, index: u8) -> Result<Card, Refusal>
    ensures value { result ≡ new_card bytes.now blocks index }
    ensures made_value { made_says result ≡ new_card_says bytes.now index }
{
    if index > 8 {
        return Err(Refusal::Argument);
    }
    let uid = uid::new_uid(bytes)?;
    Ok(Card {
        uid,
        blocks,
        index,
        state: CardState::Off,
    })
}

fn powered(s: CardState) -> CardState
    ensures { result ≡ powered s }
{
    match s {
        CardState::Off => CardState::Idle,
        _ => s,
    }
}

// Power comes: a card that was Off is Idle.
pub fn power_on(c: Card) -> Card
    ensures { result ≡ power_on c }
{
    answer::with_state(c, powered(c.state))
}

// Power is lost: Off from anywhere.
pub fn power_off(c: Card) -> Card
    ensures { result ≡ power_off c }
{
    answer::with_state(c, CardState::Off)
}
