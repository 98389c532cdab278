// A row of Type B cards kept in lent bytes, each with the slot number that its host drew, and what a request with all its markers leaves (T-05).
#![tactic(auto, unfolding(crate::specs::KeptSlots::inquired_turn, crate::specs::KeptSlots::last_atqb))]

pub mod within;

ghost use Rattle.std.specs.Prelude.{◌≡◌};
ghost use Rattle.kept_slots.specs.KeptSlots.{last_atqb, inquired_turn, inquired_number, drawn_at};

use field_b::Drawn;
use reader_b::{AnswerB, ReaderB, TurnB};

// The card that a state says, with its slot number.
fn drawn_of(number: u8, b: &[u8]) -> Drawn
    ensures { result ≡ drawn_at number b.now }
{
    Drawn {
        card: kept_b::card::card_of(b),
        number,
    }
}

// The ATQB of the last slot that a list tells of; zeros where it tells of none.
fn last_atqb(slots: usize, list: &[u8]) -> [u8; 12]
    ensures { result ≡ last_atqb slots list.now }
{
    if slots == 0 || slots > frame_b::MOST_SLOTS {
        return [0; 12];
    }
    let at = 13 * (slots - 1) + 1;
    kept::bytes_at(list, at)
}

// The turn that a request leaves of its reader: what the last slot held is what the list has of it.
fn inquired_turn(r: ReaderB, a: AnswerB, slots: usize, list: &[u8]) -> TurnB
    ensures { result ≡ inquired_turn r a slots list.now }
{
    if kept_b::answer_refuses(a) {
        return reader_b::within::turn(r, a);
    }
    TurnB {
        reader: r,
        answer: a,
        atqb: last_atqb(slots, list),
    }
}

// The number for C: how many slots the list tells of, or minus a refusal's number.
fn inquired_number(a: AnswerB, slots: usize) -> usize
    ensures { result ≡ inquired_number a slots }
{
    if kept_b::answer_refuses(a) {
        return kept_b::answer_number(a);
    }
    slots
}
