// The request over a lent row, for our own crates that have their cards in an array.
ghost use Rattle.std.specs.Prelude.{◌≡◌, ◌≤◌};
ghost use Rattle.limits.specs.Limits.{most_cards};
ghost use Rattle.slots.specs.Inquiry.{call, inquiry_of};
ghost use Rattle.slots.specs.Promise.{Inquires};
ghost use Rattle.slots_row.specs.Row.{inquired_row, request_of, Promises};

use crate::RowInquired;
use field_b::Drawn;
use limits::MOST_CARDS;
use reader_b::ReaderB;
use slots::Inquired;

// The array after the request, and what the request over the lent row gave.
#[derive(Clone, Copy)]
pub struct ArrayInquired {
    pub cards: [Drawn; MOST_CARDS],
    pub inquired: RowInquired,
}

// The first cards of the array are lent as the row; the others are unchanged.
pub fn inquire_array(
    r: ReaderB,
    wake: bool,
    n: u8,
    afi: u8,
    mut cards: [Drawn; MOST_CARDS],
    count: usize,
    list: &mut [u8],
) -> ArrayInquired
    requires { count ≤ most_cards }
    ensures { Promises (request_of r wake n afi) cards count list.old (inquired_row result.inquired result.cards) list.new }
{
    let inquired = crate::inquire_row(r, wake, n, afi, &mut cards[..count], list);
    ArrayInquired { cards, inquired }
}

// The plain request's answer, by the lent row. An array holds no row of more cards than the limit, which the plain request declines.
pub fn inquire_by_row(
    r: ReaderB,
    wake: bool,
    n: u8,
    afi: u8,
    cards: [Drawn; MOST_CARDS],
    count: usize,
    list: &mut [u8],
) -> Inquired
    ensures list_after { call result list.new ≡ inquiry_of r wake n afi cards count list.old }
    ensures inquires { Inquires r wake n afi cards count list.old result list.new }
{
    if count > MOST_CARDS {
        return slots::inquire(r, wake, n, afi, cards, count, list);
    }
    let a = inquire_array(r, wake, n, afi, cards, count, list);
    let cards = a.cards;
    Inquired {
        reader: a.inquired.reader,
        answer: a.inquired.answer,
        cards,
        slots: a.inquired.slots,
    }
}
