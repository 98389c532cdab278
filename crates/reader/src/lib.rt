// Document 01, "The reader and the sweep": one reader's selection, alone and in a sweep, by value.
#![tactic(auto)]

pub mod known;
pub mod within;

ghost use Rattle.std.specs.Prelude.{◌≡◌, true, false, length};
ghost use Rattle.reader.specs.declared.Phase.TheVariants.{New};
ghost use Rattle.reader.specs.declared.Answer.TheVariants.{Declines};
ghost use Rattle.reader.specs.Reader.{blank, turn};
ghost use Rattle.reader.specs.Calls.{Completed, awaits, hear_call, begin_call, wake_call, row_after, turn_says, hear_says, begin_says, wake_says};

use refusal::Refusal;
use uid::{Level, Uid};

// What a reader has sent last, and so what it awaits. UidSelectSent: SELECT of a level of a UID that is known, after WUPA (T-03).
#[derive(Clone, Copy)]
pub enum Phase {
    New,
    ReqaSent,
    AnticollisionSent(Level),
    SelectSent(Level),
    HltaSent,
    Selected,
    Finished,
    Stopped,
    WupaSent,
    UidSelectSent(Level),
}

// sweeps: it is in a sweep; five: the level's bytes as far as known, zeros behind; known: how many of its 40 bits are known;
// uid: the UID, whole once it is complete and from WUPA on, else the bytes of the levels so far; sak: the last SAK of a selection.
#[derive(Clone, Copy)]
pub struct Reader {
    pub phase: Phase,
    pub sweeps: bool,
    pub five: [u8; 5],
    pub known: u8,
    pub uid: Uid,
    pub sak: u8,
}

// What a reader answers to a call or a row. Sends: its next frame, so many air bits at the front of the lent row. Finds: the same, and the
// UID in the reader is complete (in a sweep). Selects: the UID and its last SAK stand in the reader. Finishes: the sweep is over.
#[derive(Clone, Copy)]
pub enum Answer {
    Sends(usize),
    Finds(usize),
    Selects,
    Finishes,
    Declines(Refusal),
}

#[derive(Clone, Copy)]
pub struct Turn {
    pub reader: Reader,
    pub answer: Answer,
}

// A reader that has sent nothing yet. Each selection and each sweep takes a new one.
pub fn new_reader() -> Reader
    ensures { result ≡ blank New false }
{
    within::blank(Phase::New, false)
}

// Is a row due?
pub fn is_awaiting(p: Phase) -> bool
    ensures { result ≡ awaits p }
{
    !matches!(
        p,
        Phase::New | Phase::Selected | Phase::Finished | Phase::Stopped
    )
}

fn declines(r: Reader, e: Refusal) -> Turn
    ensures { result ≡ turn r (Declines e) }
{
    Turn {
        reader: r,
        answer: Answer::Declines(e),
    }
}

// The host calls for a selection, or for the reader's part of a sweep: REQA goes out.
// Kept: `sweeps` is the reader's own field, and picks no step.
fn begin(sweeps: bool, r: Reader, out: &mut [u8]) -> Turn
    ensures value { result ≡ begin_call sweeps r (length out.old) }
    ensures out_after { out.new ≡ row_after result out.old }
    ensures result_value { turn_says result ≡ begin_says sweeps r (length out.old) }
{
    if !within::is_new(r.phase) {
        return declines(r, Refusal::NotDue);
    }
    if out.len() < limits::FRAME_ROOM {
        return declines(r, Refusal::Room);
    }
    let t = within::sends(within::blank(Phase::ReqaSent, sweeps));
    within::put_sent(t, out);
    t
}

// The host wants one card: its UID and last SAK. The lent row has room for 81 bits.
pub fn select(r: Reader, out: &mut [u8]) -> Turn
    ensures value { result ≡ begin_call false r (length out.old) }
    ensures out_after { out.new ≡ row_after result out.old }
    ensures result_value { turn_says result ≡ begin_says false r (length out.old) }
{
    begin(false, r, out)
}

// The host wants every idle card, one after the other.
pub fn start_sweep(r: Reader, out: &mut [u8]) -> Turn
    ensures value { result ≡ begin_call true r (length out.old) }
    ensures out_after { out.new ≡ row_after result out.old }
    ensures result_value { turn_says result ≡ begin_says true r (length out.old) }
{
    begin(true, r, out)
}

// T-03: the host wants the one card with this UID, and disturbs no other: WUPA goes out. 6, after 11 and 1: the bytes are no valid UID.
pub fn wake(r: Reader, bytes: &[u8], out: &mut [u8]) -> Turn
    ensures value { result ≡ wake_call r bytes.now (length out.old) }
    ensures out_after { out.new ≡ row_after result out.old }
    ensures result_value { turn_says result ≡ wake_says r bytes.now (length out.old) }
{
    if !within::is_new(r.phase) {
        return declines(r, Refusal::NotDue);
    }
    if out.len() < limits::FRAME_ROOM {
        return declines(r, Refusal::Room);
    }
    let t = known::wake_turn(r, bytes);
    within::put_sent(t, out);
    t
}

// The reader hears a row, an empty one for silence. Its next frame, if there is one, stands at the front of the lent row. A UID that it
// completes is valid, whatever was heard.
pub fn hear(r: Reader, row: &[u8], out: &mut [u8]) -> Turn
    ensures value { result ≡ hear_call r row.now (length out.old) }
    ensures out_after { out.new ≡ row_after result out.old }
    ensures result_value { turn_says result ≡ hear_says r row.now (length out.old) }
    ensures completed { Completed result.answer result.reader }
{
    if !is_awaiting(r.phase) {
        return declines(r, Refusal::NotDue);
    }
    if out.len() < limits::FRAME_ROOM {
        return declines(r, Refusal::Room);
    }
    let t = within::hear_rules(r, row);
    within::put_sent(t, out);
    t
}
