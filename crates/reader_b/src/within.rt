// The reader's rules. Called by our own crates only: firmware calls those of the crate itself.
ghost use Rattle.std.specs.Prelude.{◌≡◌, ◌≤◌, length};
ghost use Rattle.frame_b.specs.LimitsB.{frame_room_b};
ghost use Rattle.selection_b.specs.HeardB.{read_slot, read_attrib, read_hltb};
ghost use Rattle.rows.specs.Rows.{overlay};
ghost use Rattle.reader_b.specs.declared.AnswerB.TheVariants.{Sends};
ghost use Rattle.reader_b.specs.ReaderB.{blank, turn, stop, is_ready, next, held, slot_turn, attrib_turn, hltb_turn, hear, goes, row_after};

use crate::{AnswerB, PhaseB, ReaderB, TurnB};
use refusal::Refusal;
use selection_b::Held;

pub fn turn(r: ReaderB, a: AnswerB) -> TurnB
    ensures { result ≡ turn r a }
{
    TurnB {
        reader: r,
        answer: a,
        atqb: [0; 12],
    }
}

// A reader in a phase that needs neither N nor a slot.
pub(crate) fn blank(p: PhaseB) -> ReaderB
    ensures { result ≡ blank p }
{
    ReaderB {
        phase: p,
        slots: 0,
        slot: 0,
    }
}

// A frame goes out.
pub(crate) fn send(next: ReaderB, row: &[u8], out: &mut [u8]) -> TurnB
    requires { length row.now ≤ length out.old }
    ensures value { result ≡ turn next (Sends (length row.now)) }
    ensures out_after { out.new ≡ overlay out.old 0 row.now }
{
    rows::within::put(out, 0, row);
    turn(next, AnswerB::Sends(row.len()))
}

// "reader stopped".
fn stop(e: Refusal) -> TurnB
    ensures { result ≡ stop e }
{
    turn(blank(PhaseB::Stopped), AnswerB::Declines(e))
}

// Is a call due?
pub fn is_ready(p: PhaseB) -> bool
    ensures { result ≡ is_ready p }
{
    matches!(p, PhaseB::Ready)
}

// What a slot held is told, and the next marker goes out.
#[tactic(auto, using(std::proofs::lemmas::Bool::Decides::nat_tests), unfolding(crate::specs::ReaderB::held))]
fn hold(r: ReaderB, k: Held, atqb: [u8; 12]) -> TurnB
    ensures { result ≡ held r k atqb }
{
    if r.slot < r.slots {
        let reader = ReaderB {
            phase: PhaseB::Slot,
            slot: r.slot + 1,
            ..r
        };
        return TurnB {
            reader,
            answer: AnswerB::Marks(k),
            atqb,
        };
    }
    TurnB {
        reader: crate::new_reader(),
        answer: AnswerB::Ends(k),
        atqb,
    }
}

fn hear_slot(r: ReaderB, row: &[u8]) -> TurnB
    ensures { result ≡ slot_turn r (read_slot row.now).says (read_slot row.now).atqb }
{
    let s = selection_b::heard::read_slot(row);
    match s.says {
        Ok(k) => hold(r, k, s.atqb),
        Err(e) => stop(e),
    }
}

fn hear_attrib(row: &[u8]) -> TurnB
    ensures { result ≡ attrib_turn (read_attrib row.now) }
{
    match selection_b::heard::read_attrib(row) {
        Ok(m) => turn(crate::new_reader(), AnswerB::Attached(m)),
        Err(e) => stop(e),
    }
}

fn hear_hltb(row: &[u8]) -> TurnB
    ensures { result ≡ hltb_turn (read_hltb row.now) }
{
    match selection_b::heard::read_hltb(row) {
        Ok(()) => turn(crate::new_reader(), AnswerB::Halted),
        Err(e) => stop(e),
    }
}

// What a reader does with a row, by the frame that it sent last.
#[tactic(auto, unfolding(crate::specs::ReaderB::hear))]
pub fn hear_rules(r: ReaderB, row: &[u8]) -> TurnB
    ensures { result ≡ hear r row.now }
{
    match r.phase {
        PhaseB::Slot => hear_slot(r, row),
        PhaseB::AttribSent => hear_attrib(row),
        PhaseB::HltbSent => hear_hltb(row),
        _ => turn(r, AnswerB::Declines(Refusal::NotDue)),
    }
}

// Is a frame out?
pub fn goes(a: AnswerB) -> bool
    ensures { result ≡ goes a }
{
    matches!(a, AnswerB::Sends(_) | AnswerB::Marks(_))
}

// The next marker, where it goes out.
#[tactic(auto, unfolding(crate::specs::ReaderB::next))]
pub fn put_next(t: TurnB, out: &mut [u8])
    requires { frame_room_b ≤ length out.old }
    ensures { out.new ≡ row_after t.answer (next t.reader) out.old }
{
    if goes(t.answer) {
        rows::within::put(out, 0, &selection_b::sent::marker(t.reader.slot));
    }
}
