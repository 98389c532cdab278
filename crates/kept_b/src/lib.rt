// A Type B reader kept in lent bytes, with what the last call answered. `card` has the Type B card.
#![tactic(auto, unfolding(crate::specs::KeptReaderB::reader_in, crate::specs::KeptReaderB::reader_bytes, crate::specs::KeptReaderB::answer_bytes, crate::specs::KeptReaderB::stays, crate::specs::KeptCardB::card_in))]

pub mod card;
pub mod within;

ghost use Rattle.std.specs.Prelude.{◌≡◌, length};
ghost use Rattle.selection_b.specs.HeardB.{held_number};
ghost use Rattle.kept_b.specs.KeptReaderB.{phase_tag, phase_of, reader_bytes, reader_in, answer_number, answer_refuses, answer_event, answer_length, answer_held, front_bytes, answer_bytes, stays, held_in};

use reader_b::{AnswerB, PhaseB, ReaderB, TurnB};
use selection_b::Held;

// The room for an ATQB without CRC_B.
pub const ATQB_ROOM: usize = 12;

// Kept: the numbers in the lent bytes are the C interface, and any byte is read: the definitions of the state name them.
fn phase_tag(p: PhaseB) -> u8
    ensures { result ≡ phase_tag p }
{
    match p {
        PhaseB::Ready => 0,
        PhaseB::Slot => 1,
        PhaseB::AttribSent => 2,
        PhaseB::HltbSent => 3,
        PhaseB::Stopped => 4,
    }
}

// Kept: the numbers in the lent bytes are the C interface, and any byte is read: the definitions of the state name them.
fn phase_of(t: u8) -> PhaseB
    ensures { result ≡ phase_of t }
{
    match t {
        0 => PhaseB::Ready,
        1 => PhaseB::Slot,
        2 => PhaseB::AttribSent,
        3 => PhaseB::HltbSent,
        _ => PhaseB::Stopped,
    }
}

fn reader_bytes(r: ReaderB) -> [u8; 3]
    ensures { result ≡ reader_bytes r }
{
    [phase_tag(r.phase), r.slots, r.slot]
}

// The reader that lent bytes say.
pub fn reader_of(b: &[u8]) -> ReaderB
    ensures { result ≡ reader_in b.now }
{
    ReaderB {
        phase: phase_of(kept::at(b, 0)),
        slots: kept::at(b, 1),
        slot: kept::at(b, 2),
    }
}

fn held_number(k: Held) -> u8
    ensures { result ≡ held_number k }
{
    match k {
        Held::None => 0,
        Held::One => 1,
        Held::More => 2,
    }
}

fn answer_held(a: AnswerB) -> u8
    ensures { result ≡ answer_held a }
{
    match a {
        AnswerB::Marks(k) | AnswerB::Ends(k) => held_number(k),
        _ => 0,
    }
}

// The number that a call gives: so many bits to send, or minus a refusal's number.
pub fn answer_number(a: AnswerB) -> usize
    ensures { result ≡ answer_number a }
{
    match a {
        AnswerB::Sends(n) => n,
        AnswerB::Marks(_) => 24,
        AnswerB::Declines(e) => kept::refused(e),
        AnswerB::Ends(_) | AnswerB::Attached(_) | AnswerB::Halted => 0,
    }
}

pub fn answer_refuses(a: AnswerB) -> bool
    ensures { result ≡ answer_refuses a }
{
    matches!(a, AnswerB::Declines(_))
}

// Kept: the numbers in the lent bytes are the C interface, and any byte is read: the definitions of the state name them.
fn answer_event(a: AnswerB) -> u8
    ensures { result ≡ answer_event a }
{
    match a {
        AnswerB::Marks(_) => 8,
        AnswerB::Ends(_) => 9,
        AnswerB::Attached(_) => 10,
        AnswerB::Halted => 11,
        AnswerB::Sends(_) | AnswerB::Declines(_) => 0,
    }
}

fn answer_length(a: AnswerB) -> u8
    ensures { result ≡ answer_length a }
{
    match a {
        AnswerB::Attached(m) => m,
        AnswerB::Declines(e) => refusal::place(e),
        _ => 0,
    }
}

// The reader, what a slot held and its ATQB.
fn front_bytes(t: TurnB) -> [u8; 16]
    ensures value { result ≡ front_bytes t }
    ensures atqb_len { length t.atqb ≡ 12 }
{
    let r = t.reader;
    let q = t.atqb;
    let tag = phase_tag(r.phase);
    let held = answer_held(t.answer);
    [
        tag, r.slots, r.slot, held, q[0], q[1], q[2], q[3], q[4], q[5], q[6], q[7], q[8], q[9],
        q[10], q[11],
    ]
}

// The event and what came with it.
fn answer_bytes(a: AnswerB) -> [u8; 9]
    ensures { result ≡ answer_bytes a }
{
    [answer_event(a), answer_length(a), 0, 0, 0, 0, 0, 0, 0]
}

// Is a call on the reader x refused, and the reader still x?
pub fn stays(x: ReaderB, t: TurnB) -> bool
    ensures { result ≡ stays x t }
{
    answer_refuses(t.answer) && reader_bytes(x) == reader_bytes(t.reader)
}

// What the slot of the last answer held: 0, 1 or 2 for none, one, more.
pub fn held_of(b: &[u8]) -> u8
    ensures { result ≡ held_in b.now }
{
    kept::at(b, 3)
}
