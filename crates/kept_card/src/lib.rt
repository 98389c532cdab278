// A card kept in lent bytes. `whole` has the whole card, with its end of the block protocol.
#![tactic(auto, unfolding(crate::specs::KeptCard::card_bytes, crate::specs::KeptCard::card_in, crate::specs::KeptLink::link_bytes, crate::specs::KeptLink::link_in))]

mod link;
pub mod whole;
pub mod within;

ghost use Rattle.std.specs.Prelude.{◌≡◌, length};
ghost use Rattle.kept_card.specs.KeptCard.{state_tag, state_level, state_index, state_in, card_bytes, card_in};

use card::{Card, CardState};

// Which state a card is in, as a byte.
// Kept: the numbers in the lent bytes are the C interface, and any byte is read: the definitions of the state name them.
pub fn state_tag(s: CardState) -> u8
    ensures { result ≡ state_tag s }
{
    match s {
        CardState::Off => 0,
        CardState::Idle => 1,
        CardState::Ready(_) => 2,
        CardState::Active => 3,
        CardState::Halt => 4,
        CardState::ReadyStar(_) => 5,
        CardState::ActiveStar => 6,
        CardState::Protocol(_) => 7,
    }
}

fn state_level(s: CardState) -> u8
    ensures { result ≡ state_level s }
{
    match s {
        CardState::Ready(l) | CardState::ReadyStar(l) => kept::level_tag(l),
        _ => 0,
    }
}

fn state_index(s: CardState) -> u8
    ensures { result ≡ state_index s }
{
    match s {
        CardState::Protocol(i) => i,
        _ => 0,
    }
}

// Kept: the numbers in the lent bytes are the C interface, and any byte is read: the definitions of the state name them.
fn state_in(t: u8, l: u8, i: u8) -> CardState
    ensures { result ≡ state_in t l i }
{
    let level = kept::level_of(l);
    // Kept: the numbers in the lent bytes are the C interface, and any byte is read: the definitions of the state name them.
    match t {
        0 => CardState::Off,
        1 => CardState::Idle,
        2 => CardState::Ready(level),
        3 => CardState::Active,
        4 => CardState::Halt,
        5 => CardState::ReadyStar(level),
        6 => CardState::ActiveStar,
        _ => CardState::Protocol(i),
    }
}

// A card as 20 bytes.
pub fn card_bytes(c: Card) -> [u8; 20]
    ensures value { result ≡ card_bytes c }
    ensures bytes_len { length c.uid.bytes ≡ 10 }
{
    let u = c.uid.bytes;
    let tag = state_tag(c.state);
    let level = state_level(c.state);
    let reader = state_index(c.state);
    let blocks = kept::flag(c.blocks);
    let size = kept::size_tag(c.uid.size);
    [
        tag, level, reader, blocks, c.index, 0, 0, 0, 0, size, u[0], u[1], u[2], u[3], u[4], u[5],
        u[6], u[7], u[8], u[9],
    ]
}

// The card that lent bytes say.
pub fn card_of(b: &[u8]) -> Card
    ensures { result ≡ card_in b.now }
{
    Card {
        uid: kept::uid_of(b),
        blocks: kept::at(b, 3) == 1,
        index: kept::at(b, 4),
        state: state_in(kept::at(b, 0), kept::at(b, 1), kept::at(b, 2)),
    }
}
