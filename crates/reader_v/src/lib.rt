// Document 02, T-10: one reader of vicinity cards, stepped by what it hears, by value. Each frame that goes out stands at the front of a lent row.
#![tactic(auto)]

pub mod calls;
pub mod within;

ghost use Rattle.std.specs.Prelude.{◌≡◌, length};
ghost use Rattle.reader_v.specs.declared.PhaseV.TheVariants.{Ready};
ghost use Rattle.reader_v.specs.ReaderV.{blank, awaits};
ghost use Rattle.reader_v.specs.HearV.{hear_call, heard_data, heard_row, turn_says, hear_says};

use refusal::Refusal;
use selection_b::Held;
use sent_v::Round;

// InRound, InSweep: a slot is awaited; QuietSent: silence; ReadSent: the answer to a read; OtherSent: another answer.
#[derive(Clone, Copy)]
pub enum PhaseV {
    Ready,
    InRound,
    InSweep,
    QuietSent,
    ReadSent,
    OtherSent,
    Stopped,
}

// round and slot: the round that goes on, and its slot from 0. count, less one, and status: the blocks of a read. met: the slots of a sweep whose rounds
// are still to come (specs/Met.antt). What a phase does not need is zero.
#[derive(Clone, Copy)]
pub struct ReaderV {
    pub phase: PhaseV,
    pub round: Round,
    pub slot: u8,
    pub count: u8,
    pub status: bool,
    pub met: [u8; 240],
}

// Sends: a call's frame goes out. NextSlot: what the slot held, and an EOF goes out. NextRound: what the last slot held, and the request of a sweep's next
// round goes out. Ends: what the last slot held. Data: so many bytes of a read. TagError: a code of the tag's; the reader is ready.
#[derive(Clone, Copy)]
pub enum AnswerR {
    Sends,
    NextSlot(Held),
    NextRound(Held),
    Ends(Held),
    Quieted,
    Data(usize),
    Done,
    TagError(u8),
    Declines(Refusal),
}

// bits: of the frame that goes out, at the front of the lent row. dsfid, uid: of the one tag that a slot held, else zeros.
// Kept: the number counts no elements of this array.
#[derive(Clone, Copy)]
pub struct TurnV {
    pub reader: ReaderV,
    pub answer: AnswerR,
    pub bits: usize,
    pub dsfid: u8,
    pub uid: [u8; 8],
}

// A reader that is ready.
pub fn new_reader() -> ReaderV
    ensures { result ≡ blank Ready }
{
    within::blank(PhaseV::Ready)
}

// Is a row due?
pub fn is_awaiting(p: PhaseV) -> bool
    ensures { result ≡ awaits p }
{
    !matches!(p, PhaseV::Ready | PhaseV::Stopped)
}

// A row is heard; an empty one is silence. A read's data go to the front of `bytes`, and a sweep's next request to the front of `out`. 11: no row is due;
// 1: `out` has no room for 112 bits, or, where a read is awaited, `bytes` none for its blocks of 32 bytes each, 33 with status.
#[tactic(auto, using(std::proofs::lemmas::Bool::Decides::nat_tests), unfolding(crate::specs::HearV::hear_call, crate::specs::HearV::heard_data, crate::specs::HearV::heard_row))]
pub fn hear(r: ReaderV, row: &[u8], bytes: &mut [u8], out: &mut [u8]) -> TurnV
    ensures value { result ≡ hear_call r row.now (length bytes.old) (length out.old) }
    ensures bytes_after { bytes.new ≡ heard_data r row.now bytes.old out.old }
    ensures out_after { out.new ≡ heard_row r row.now bytes.old out.old }
    ensures result_value { turn_says result ≡ hear_says r row.now (length bytes.old) (length out.old) }
{
    if !is_awaiting(r.phase) {
        return within::turn(r, AnswerR::Declines(Refusal::NotDue));
    }
    if within::is_short(r, bytes.len(), out.len()) {
        return within::turn(r, AnswerR::Declines(Refusal::Room));
    }
    let room = bytes.len();
    let t = within::hear_rules(r, row);
    within::put_data(t, row, bytes);
    let n = within::put_next(t, row, room, out);
    within::sized(t, n)
}
