// Document 02, T-10: one vicinity tag, by value. Its memory and its locks are lent at each call.
#![tactic(auto)]

pub mod within;

ghost use Rattle.std.specs.Prelude.{◌≡◌, length};
ghost use Rattle.tag.specs.Tag.{power_on, power_off};
ghost use Rattle.tag.specs.Calls.{take_call, take_memory, take_locks, take_row, take_says, eof_call, eof_row, eof_says};
ghost use Rattle.refusal.specs.Refusal.{sent_says};

use refusal::Refusal;
use request_v::{StateV, Tag};

// A tag after a row or an EOF.
#[derive(Clone, Copy)]
pub struct TakenV {
    pub tag: Tag,
    pub answer: Result<Option<usize>, Refusal>,
}

// Power comes: a tag that was Off is Ready.
pub fn power_on(t: Tag) -> Tag
    ensures { result ≡ power_on t }
{
    within::with_state(t, within::powered(t.state))
}

// Power is lost: Off from anywhere.
pub fn power_off(t: Tag) -> Tag
    ensures { result ≡ power_off t }
{
    within::with_state(t, StateV::Off)
}

// The tag takes a row, any bits of any number. Its answer stands at the front of `out`. 1: memory, locks or `out` are shorter than the tag's
// geometry asks for; 6: the geometry is none.
#[tactic(auto, using(std::proofs::lemmas::Bool::Decides::nat_tests), unfolding(crate::specs::Calls::take_call, crate::specs::Calls::take_memory, crate::specs::Calls::take_locks, crate::specs::Calls::take_row, crate::specs::Tag::answers))]
pub fn take(t: Tag, row: &[u8], memory: &mut [u8], locks: &mut [u8], out: &mut [u8]) -> TakenV
    ensures value { result ≡ take_call t row.now memory.old locks.old out.old }
    ensures memory_after { memory.new ≡ take_memory t row.now memory.old locks.old out.old }
    ensures locks_after { locks.new ≡ take_locks t row.now memory.old locks.old out.old }
    ensures out_after { out.new ≡ take_row t row.now memory.old locks.old out.old }
    ensures answer_value { sent_says result.answer ≡ take_says t row.now memory.old locks.old out.old }
{
    if within::is_short(t, memory.len(), locks.len(), out.len()) {
        return TakenV {
            tag: t,
            answer: Err(Refusal::Room),
        };
    }
    if !within::is_geometry(t.blocks, t.size) {
        return TakenV {
            tag: t,
            answer: Err(Refusal::Argument),
        };
    }
    within::take_rules(t, row, memory, locks, out)
}

// An EOF begins the next slot of a round. 1: `out` has no room for 96 bits.
#[tactic(auto, using(std::proofs::lemmas::Bool::Decides::nat_tests), unfolding(crate::specs::Calls::eof_call, crate::specs::Calls::eof_row))]
pub fn eof(t: Tag, out: &mut [u8]) -> TakenV
    ensures value { result ≡ eof_call t (length out.old) }
    ensures out_after { out.new ≡ eof_row t out.old }
    ensures answer_value { sent_says result.answer ≡ eof_says t (length out.old) }
{
    if out.len() < 96 {
        return TakenV {
            tag: t,
            answer: Err(Refusal::Room),
        };
    }
    within::eof_rules(t, out)
}
