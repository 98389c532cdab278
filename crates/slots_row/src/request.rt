// The request that is to be made, and the call that makes it over an array of cards, as values.
ghost use Rattle.std.specs.Prelude.{◌≡◌, length};
ghost use Rattle.limits.specs.Limits.{most_cards};
ghost use Rattle.slots_row.specs.Row.{row_of, no_cards, Promises};

use crate::RowInquired;
use card_b::{CardB, StateB};
use field_b::Drawn;
use limits::MOST_CARDS;
use reader_b::ReaderB;
use slots::Inquired;

// What the call is told, but for the cards and the list.
#[derive(Clone, Copy)]
pub struct Request {
    pub reader: ReaderB,
    pub wake: bool,
    pub slots: u8,
    pub afi: u8,
}

// Cards that stand where the row has none.
pub fn no_cards() -> [Drawn; MOST_CARDS]
    ensures { result ≡ no_cards }
{
    let c = CardB {
        pupi: [0; 4],
        afi: 0,
        markers: false,
        application: [0; 4],
        protocol: [0; 3],
        state: StateB::Off,
    };
    [Drawn { card: c, number: 0 }; MOST_CARDS]
}

// The request over the first cards of an array.
// Kept: the public calls take them one by one (docs/PROMISES.md), by value, and the definitions as well.
pub fn make(k: Request, cards: [Drawn; MOST_CARDS], count: usize, list: &mut [u8]) -> Inquired
    ensures promises { Promises k cards count list.old result list.new }
    ensures cards_len { length result.cards ≡ most_cards }
{
    slots::inquire(k.reader, k.wake, k.slots, k.afi, cards, count, list)
}

// What the call over a row gives besides the row.
pub fn row_of(s: Inquired) -> RowInquired
    ensures { result ≡ row_of s }
{
    RowInquired {
        reader: s.reader,
        answer: s.answer,
        slots: s.slots,
    }
}
