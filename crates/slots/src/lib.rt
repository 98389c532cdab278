// Document 02, T-05: one request with all its markers over a field of Type B cards, over values.
#![tactic(auto)]

mod terms;
pub mod within;

ghost use Rattle.std.specs.Prelude.{◌≡◌};
ghost use Rattle.slots.specs.Inquiry.{call, refused, inquiry_of};
ghost use Rattle.slots.specs.Promise.{Inquires};

use field_b::Drawn;
use limits::MOST_CARDS;
use reader_b::{AnswerB, ReaderB};
use refusal::Refusal;
use selection_b::Request;

// After a request: the reader and its last answer, Ends with what the last slot held, or why the request was declined; the cards; and how many
// slots stand in the list.
#[derive(Clone, Copy)]
pub struct Inquired {
    pub reader: ReaderB,
    pub answer: AnswerB,
    pub cards: [Drawn; MOST_CARDS],
    pub slots: usize,
}

// Declined before a frame is sent.
// Kept: its twin in wake makes another answer; two values put together are no plainer as one function.
fn refused(r: ReaderB, cards: [Drawn; MOST_CARDS], e: Refusal) -> Inquired
    ensures { result ≡ refused r cards e }
{
    Inquired {
        reader: r,
        answer: AnswerB::Declines(e),
        cards,
        slots: 0,
    }
}

// REQB, or WUPB where wake, with n slots and then the marker of each other slot, over a field, the first cards of the array. What each slot held goes
// into the lent list from its front on, 13 bytes a slot. Declined, with all unchanged: 11, the reader is not ready; 1, the list has less than 208
// bytes; 6, N, a slot number or the field is not one that a request takes.
// Kept: docs/PROMISES.md promises `slots::inquire` with these parameters, and cards by value hold to fixed memory.
pub fn inquire(
    r: ReaderB,
    wake: bool,
    n: u8,
    afi: u8,
    cards: [Drawn; MOST_CARDS],
    count: usize,
    list: &mut [u8],
) -> Inquired
    ensures list_after { call result list.new ≡ inquiry_of r wake n afi cards count list.old }
    ensures inquires { Inquires r wake n afi cards count list.old result list.new }
{
    if !reader_b::within::is_ready(r.phase) {
        return refused(r, cards, Refusal::NotDue);
    }
    if list.len() < frame_b::LIST_ROOM {
        return refused(r, cards, Refusal::Room);
    }
    if count > MOST_CARDS {
        return refused(r, cards, Refusal::Argument);
    }
    if !terms::is_within(n, &cards[..count]) {
        return refused(r, cards, Refusal::Argument);
    }
    let q = Request {
        wake,
        slots: n,
        afi,
    };
    let p = within::run(q, cards, count, list);
    let cards = p.cards;
    Inquired {
        reader: p.turn.reader,
        answer: p.turn.answer,
        cards,
        slots: p.slots,
    }
}
