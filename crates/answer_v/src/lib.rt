// Document 02, T-10: what the reader of vicinity cards makes of a row, by what it awaits.
#![tactic(auto)]

pub mod within;

ghost use Rattle.std.specs.Prelude.{◌≡◌};
ghost use Rattle.answer_v.specs.Heard.{read_slot, read_answer};
ghost use Rattle.answer_v.specs.Says.{slot_says, answer_says};

use refusal::Refusal;
use selection_b::Held;

// What was heard in a slot of a round: of one tag its DSFID and its UID, else zeros.
// Kept: a slot is told with zeros where no one tag stands (`held_says`, `telling`), so they stand beside what was held.
#[derive(Clone, Copy)]
pub struct SlotV {
    pub says: Result<Held, Refusal>,
    pub dsfid: u8,
    pub uid: [u8; 8],
}

// A round's slot, and its mask: the low len bits count. one: the round has one slot and not 16. deep: a sweep whose mask cannot grow.
#[derive(Clone, Copy)]
pub struct Turn {
    pub one: bool,
    pub deep: bool,
    pub len: u8,
    pub mask: [u8; 8],
    pub slot: u8,
}

// What a tag's answer to another request says: done, with so many bytes behind the flags; an error of the tag.
#[derive(Clone, Copy)]
pub enum AnswerSays {
    Good(usize),
    Fails(u8),
    NotGood(Refusal),
}

// The answer that is awaited: to a read of count + 1 blocks, each with its status or without, or to another request.
#[derive(Clone, Copy)]
pub struct Awaited {
    pub reads: bool,
    pub count: u8,
    pub status: bool,
}

// What was heard in a slot.
#[tactic(auto, using(std::proofs::lemmas::Bool::Decides::nat_tests, selection_b::specs::HeardBLaws::is_nil_is), unfolding(crate::specs::Heard::read_slot))]
pub fn read_slot(k: Turn, row: &[u8]) -> SlotV
    ensures value { result ≡ read_slot k row.now }
    ensures result_value { slot_says result ≡ slot_says (read_slot k row.now) }
{
    if row.is_empty() {
        return within::nobody(Ok(Held::None));
    }
    if row.len() != 96 {
        return within::nobody(Err(Refusal::Length));
    }
    if !rows::is_clean(row) {
        return within::collided(k.deep);
    }
    within::slot_in(k, row)
}

// The answer to a read of count + 1 blocks, or to any other request that is answered.
#[tactic(auto, using(std::proofs::lemmas::Bool::Decides::nat_tests, selection_b::specs::HeardBLaws::is_nil_is), unfolding(crate::specs::Heard::read_answer))]
pub fn read_answer(reads: bool, count: u8, status: bool, row: &[u8]) -> AnswerSays
    ensures value { result ≡ read_answer reads count status row.now }
    ensures result_value { answer_says result ≡ answer_says (read_answer reads count status row.now) }
{
    let k = Awaited {
        reads,
        count,
        status,
    };
    if row.is_empty() {
        return AnswerSays::NotGood(Refusal::Silence);
    }
    if !within::is_length(k, row.len()) {
        return AnswerSays::NotGood(Refusal::Length);
    }
    if !rows::is_clean(row) {
        return AnswerSays::NotGood(Refusal::Collision);
    }
    within::answer_in(k, row)
}
