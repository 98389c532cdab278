// Document 02, T-05: one Type B reader, stepped by what it hears, by value. Each frame that goes out stands at the front of a lent row, which has
// room for 88 bits.
#![tactic(auto)]

pub mod within;

ghost use Rattle.std.specs.Prelude.{◌≡◌, length};
ghost use Rattle.selection_b.specs.TypeB.{request, attrib_for, hltb};
ghost use Rattle.reader_b.specs.ReaderB.{blank, is_ready, awaits, requests, attaches, halts, next, hear, call_with, row_after, turn_says, call_says};
ghost use Rattle.reader_b.specs.declared.PhaseB.TheVariants.{Ready};

use refusal::Refusal;
use selection_b::Held;

// Slot: the request or a marker is out; AttribSent, HltbSent: their answer is awaited.
#[derive(Clone, Copy)]
pub enum PhaseB {
    Ready,
    Slot,
    AttribSent,
    HltbSent,
    Stopped,
}

// In a slot, slots is N and slot the slot's number, from 1; else both are 0.
#[derive(Clone, Copy)]
pub struct ReaderB {
    pub phase: PhaseB,
    pub slots: u8,
    pub slot: u8,
}

// Sends: a frame of so many bits goes out. Marks: what the slot held, and the next slot's marker goes out. Ends: what the last slot held.
// Attached: the card's MBLI.
#[derive(Clone, Copy)]
pub enum AnswerB {
    Sends(usize),
    Marks(Held),
    Ends(Held),
    Attached(u8),
    Halted,
    Declines(Refusal),
}

// atqb: the ATQB without CRC_B of the one card that a slot held, else zeros.
#[derive(Clone, Copy)]
pub struct TurnB {
    pub reader: ReaderB,
    pub answer: AnswerB,
    pub atqb: [u8; 12],
}

// A reader that is ready.
pub fn new_reader() -> ReaderB
    ensures { result ≡ blank Ready }
{
    within::blank(PhaseB::Ready)
}

// Is a row due?
pub fn is_awaiting(p: PhaseB) -> bool
    ensures { result ≡ awaits p }
{
    matches!(p, PhaseB::Slot | PhaseB::AttribSent | PhaseB::HltbSent)
}

// REQB, or WUPB where wake, with N slots.
// Kept: it is a bit of the frame that is sent or heard, or a field of the reader, as the definitions have it, and picks no step.
#[tactic(auto, using(std::proofs::lemmas::Bool::Decides::nat_tests), unfolding(crate::specs::ReaderB::requests, crate::specs::ReaderB::call_with))]
pub fn request(r: ReaderB, wake: bool, n: u8, afi: u8, out: &mut [u8]) -> TurnB
    ensures value { result ≡ call_with (is_ready r.phase) r (length out.old) (requests r wake n afi) }
    ensures out_after { out.new ≡ row_after result.answer (request wake n afi) out.old }
    ensures result_value { turn_says result ≡ call_says (is_ready r.phase) (length out.old) (requests r wake n afi) }
{
    if !within::is_ready(r.phase) {
        return within::turn(r, AnswerB::Declines(Refusal::NotDue));
    }
    if out.len() < frame_b::FRAME_ROOM {
        return within::turn(r, AnswerB::Declines(Refusal::Room));
    }
    if !selection_b::sent::is_slots(n) {
        return within::turn(r, AnswerB::Declines(Refusal::Argument));
    }
    let next = ReaderB {
        phase: PhaseB::Slot,
        slots: n,
        slot: 1,
    };
    within::send(next, &selection_b::sent::request(wake, n, afi), out)
}

// HLTB to the card with this PUPI.
#[tactic(auto, using(std::proofs::lemmas::Bool::Decides::nat_tests), unfolding(crate::specs::ReaderB::halts, crate::specs::ReaderB::call_with))]
pub fn halt(r: ReaderB, pupi: [u8; 4], out: &mut [u8]) -> TurnB
    ensures value { result ≡ call_with (is_ready r.phase) r (length out.old) (halts r) }
    ensures out_after { out.new ≡ row_after result.answer (hltb pupi) out.old }
    ensures result_value { turn_says result ≡ call_says (is_ready r.phase) (length out.old) (halts r) }
{
    if !within::is_ready(r.phase) {
        return within::turn(r, AnswerB::Declines(Refusal::NotDue));
    }
    if out.len() < frame_b::FRAME_ROOM {
        return within::turn(r, AnswerB::Declines(Refusal::Room));
    }
    let next = within::blank(PhaseB::HltbSent);
    within::send(next, &selection_b::sent::hltb(pupi), out)
}

// ATTRIB to the card of an ATQB, with the reader's own size index.
#[tactic(auto, using(std::proofs::lemmas::Bool::Decides::nat_tests), unfolding(crate::specs::ReaderB::attaches, crate::specs::ReaderB::call_with))]
pub fn attach(r: ReaderB, atqb: [u8; 12], index: u8, out: &mut [u8]) -> TurnB
    ensures value { result ≡ call_with (is_ready r.phase) r (length out.old) (attaches r index) }
    ensures out_after { out.new ≡ row_after result.answer (attrib_for atqb index) out.old }
    ensures result_value { turn_says result ≡ call_says (is_ready r.phase) (length out.old) (attaches r index) }
{
    if !within::is_ready(r.phase) {
        return within::turn(r, AnswerB::Declines(Refusal::NotDue));
    }
    if out.len() < frame_b::FRAME_ROOM {
        return within::turn(r, AnswerB::Declines(Refusal::Room));
    }
    if index > 8 {
        return within::turn(r, AnswerB::Declines(Refusal::Argument));
    }
    let next = within::blank(PhaseB::AttribSent);
    within::send(next, &selection_b::sent::attrib_for(atqb, index), out)
}

// A row is heard; an empty one is silence. The next slot's marker, if one goes out, stands at the front of the lent row.
#[tactic(auto, using(std::proofs::lemmas::Bool::Decides::nat_tests), unfolding(crate::specs::ReaderB::call_with))]
pub fn hear(r: ReaderB, row: &[u8], out: &mut [u8]) -> TurnB
    ensures value { result ≡ call_with (awaits r.phase) r (length out.old) (hear r row.now) }
    ensures out_after { out.new ≡ row_after result.answer (next result.reader) out.old }
    ensures result_value { turn_says result ≡ call_says (awaits r.phase) (length out.old) (hear r row.now) }
{
    if !is_awaiting(r.phase) {
        return within::turn(r, AnswerB::Declines(Refusal::NotDue));
    }
    if out.len() < frame_b::FRAME_ROOM {
        return within::turn(r, AnswerB::Declines(Refusal::Room));
    }
    let t = within::hear_rules(r, row);
    within::put_next(t, out);
    t
}
