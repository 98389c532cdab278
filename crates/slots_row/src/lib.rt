// Document 02, T-05: one request with all its markers over a lent row of Type B cards; the row's cards are changed in place.
// They are copied into an array, the request is made over it, and they are copied back.
#![tactic(auto)]

ghost use Rattle.std.specs.Prelude.{◌≡◌, length};
ghost use Rattle.slots.specs.Inquiry.{call, inquiry_of};
ghost use Rattle.slots.specs.Promise.{Inquires};
ghost use Rattle.slots_row.specs.Row.{inquired_row};

use field_b::Drawn;
use limits::MOST_CARDS;
use reader_b::{AnswerB, ReaderB};
use request::Request;

mod request;
pub mod within;

// After the call: the reader and its last answer, Ends with what the last slot held, or why the request was declined; and how many slots stand in the
// list.
#[derive(Clone, Copy)]
pub struct RowInquired {
    pub reader: ReaderB,
    pub answer: AnswerB,
    pub slots: usize,
}

// REQB, or WUPB where wake, with n slots and then the marker of each other slot, over the lent row, which is the field. What it answers, what becomes of
// the cards and what stands in the list is what `slots::inquire` says of them as values. Declined, with all unchanged: 11, the reader is not ready; 1, the
// list has less than 208 bytes; 6, the row has more cards than the limit, or N, a slot number or the field is not one that a request takes.
// Kept: the public calls take them one by one (docs/PROMISES.md), by value, and the definitions as well.
pub fn inquire_row(
    r: ReaderB,
    wake: bool,
    n: u8,
    afi: u8,
    cards: &mut [Drawn],
    list: &mut [u8],
) -> RowInquired
    ensures { (call (inquired_row result cards.new) list.new ≡ inquiry_of r wake n afi cards.old (length cards.old) list.old) × Inquires r wake n afi cards.old (length cards.old) list.old (inquired_row result cards.new) list.new }
{
    let k = Request {
        reader: r,
        wake,
        slots: n,
        afi,
    };
    let count = cards.len();
    let mut held = request::no_cards();
    if count > MOST_CARDS {
        return request::row_of(request::make(k, held, count, list));
    }
    held[..count].copy_from_slice(cards);
    let s = request::make(k, held, count, list);
    cards.copy_from_slice(&s.cards[..count]);
    request::row_of(s)
}
