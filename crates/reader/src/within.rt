// The reader's rules on values, and its frames. Called by our own crates only: firmware calls `select`, `start_sweep`, `wake` and `hear`.
ghost use Rattle.std.specs.Prelude.{◌≡◌, true, false, ◌&&◌, [], ◌≤◌, length, Ok};
ghost use Rattle.rows.specs.Rows.{overlay, is_nil};
ghost use Rattle.uid.specs.Uid.{place};
ghost use Rattle.uid.specs.declared.UidSize.TheVariants.{Single};
ghost use Rattle.reader.specs.Reader.{uid, reader, blank, is_new, frame, turn, sends, finds, stop, opens, longer, completes, after_atqa, hear_atqa, after_rest, hear_rest, after_sak, contradicts, sak_heard, hear_sak, hear_silence, hear};
ghost use Rattle.reader.specs.Calls.{sent_by};
ghost use Rattle.reader.specs.declared.Answer.TheVariants.{Declines};
ghost use Rattle.refusal.specs.declared.Refusal.TheVariants.{NotDue};

use crate::{Answer, Phase, Reader, Turn};
use refusal::Refusal;
use selection::{Rest, RestSays};
use uid::{Level, Uid, UidSize};

fn no_uid() -> Uid
    ensures { result ≡ uid Single [] }
{
    Uid {
        size: UidSize::Single,
        bytes: [0u8; 10],
    }
}

pub fn blank(p: Phase, s: bool) -> Reader
    ensures { result ≡ blank p s }
{
    Reader {
        phase: p,
        sweeps: s,
        five: [0u8; 5],
        known: 0,
        uid: no_uid(),
        sak: 0,
    }
}

pub fn is_new(p: Phase) -> bool
    ensures { result ≡ is_new p }
{
    matches!(p, Phase::New)
}

// How many bits the frame has that a reader has sent.
pub fn frame_bits(r: Reader) -> usize
    ensures { result ≡ length (frame r) }
{
    match r.phase {
        Phase::ReqaSent | Phase::WupaSent => 7,
        Phase::AnticollisionSent(_) => selection::numbers::anticollision_bits(r.known),
        Phase::SelectSent(_) | Phase::UidSelectSent(_) => 81,
        Phase::HltaSent => 36,
        Phase::New | Phase::Selected | Phase::Finished | Phase::Stopped => 0,
    }
}

// Writes the frame that a reader sends at the front of out.
pub fn put_frame(r: Reader, out: &mut [u8])
    requires { 81 ≤ length out.old }
    ensures { out.new ≡ overlay out.old 0 (frame r) }
{
    match r.phase {
        Phase::ReqaSent => rows::within::put(out, 0, &selection::sent::reqa()),
        Phase::WupaSent => rows::within::put(out, 0, &selection::sent::wupa()),
        Phase::AnticollisionSent(l) => selection::within::put_anticollision(
            l, r.known, r.five, out,
        ),
        Phase::SelectSent(l) | Phase::UidSelectSent(l) => rows::within::put(
            out,
            0,
            &selection::sent::select(l, r.five),
        ),
        Phase::HltaSent => rows::within::put(out, 0, &selection::sent::hlta()),
        Phase::New | Phase::Selected | Phase::Finished | Phase::Stopped => {}
    }
}

// Writes what a turn sends.
pub fn put_sent(t: Turn, out: &mut [u8])
    requires { 81 ≤ length out.old }
    ensures { out.new ≡ overlay out.old 0 (sent_by t.answer t.reader) }
{
    match t.answer {
        Answer::Sends(_) | Answer::Finds(_) => put_frame(t.reader, out),
        Answer::Selects | Answer::Finishes | Answer::Declines(_) => {}
    }
}

pub fn sends(r: Reader) -> Turn
    ensures { result ≡ sends r }
{
    Turn {
        reader: r,
        answer: Answer::Sends(frame_bits(r)),
    }
}

fn finds(r: Reader) -> Turn
    ensures { result ≡ finds r }
{
    Turn {
        reader: r,
        answer: Answer::Finds(frame_bits(r)),
    }
}

pub fn stop(e: Refusal) -> Turn
    ensures { result ≡ stop e }
{
    Turn {
        reader: blank(Phase::Stopped, false),
        answer: Answer::Declines(e),
    }
}

// A level begins: ANTICOLLISION with no bit known.
fn opens(l: Level, s: bool, u: Uid) -> Turn
    ensures { result ≡ opens l s u }
{
    sends(Reader {
        uid: u,
        ..blank(Phase::AnticollisionSent(l), s)
    })
}

// Silence after REQA ends a sweep.
// Kept: `sweeps` is the reader's own field.
fn is_over(sweeps: bool, row: &[u8]) -> bool
    ensures { result ≡ (is_nil row.now && sweeps) }
{
    row.len() == 0 && sweeps
}

fn hear_atqa(r: Reader, row: &[u8]) -> Turn
    ensures { result ≡ hear_atqa r row.now }
{
    let s = r.sweeps;
    if is_over(s, row) {
        return Turn {
            reader: blank(Phase::Finished, false),
            answer: Answer::Finishes,
        };
    }
    match selection::heard::read_atqa(row) {
        Ok(()) => opens(Level::One, s, no_uid()),
        Err(e) => stop(e),
    }
}

// The reader that knows more bits of its level.
fn knows(p: Phase, r: Reader, x: Rest) -> Reader
    ensures { result ≡ reader p r.sweeps x.five x.known r.uid 0 }
{
    let five = x.five;
    Reader {
        phase: p,
        five,
        known: x.known,
        sak: 0,
        ..r
    }
}

fn hear_rest(l: Level, r: Reader, row: &[u8]) -> Turn
    ensures { result ≡ hear_rest l r row.now }
{
    let x = selection::heard::read_rest(r.known, r.five, row);
    match x.says {
        RestSays::Whole => sends(knows(Phase::SelectSent(l), r, x)),
        RestSays::Collided => sends(knows(Phase::AnticollisionSent(l), r, x)),
        RestSays::NotRest(e) => stop(e),
    }
}

// The UID so far with the bytes of level l added, of which the first n are dropped.
fn longer(z: UidSize, l: Level, r: Reader, n: usize) -> Uid
    requires { n ≤ 1 }
    ensures { result ≡ uid z (longer l r n) }
{
    let at = 3 * selection::numbers::place(l);
    let mut bytes = [0u8; 10];
    rows::within::put(&mut bytes, 0, &r.uid.bytes[..at]);
    rows::within::put(&mut bytes, at, &r.five[n..4]);
    Uid { size: z, bytes }
}

// The UID is complete: in a sweep HLTA comes next.
pub fn completes(s: bool, u: Uid, b: u8) -> Turn
    ensures { result ≡ completes s u b }
{
    if s {
        return finds(Reader {
            uid: u,
            sak: b,
            ..blank(Phase::HltaSent, true)
        });
    }
    Turn {
        reader: Reader {
            uid: u,
            sak: b,
            ..blank(Phase::Selected, false)
        },
        answer: Answer::Selects,
    }
}

// b3 of the SAK is set: the next level.
fn more_levels(l: Level, r: Reader) -> Turn
    ensures { result ≡ after_sak l r 0 true }
{
    let s = r.sweeps;
    match l {
        Level::One => opens(Level::Two, s, longer(UidSize::Single, Level::One, r, 1)),
        Level::Two => opens(Level::Three, s, longer(UidSize::Single, Level::Two, r, 1)),
        Level::Three => stop(Refusal::Forbidden),
    }
}

// b3 of the SAK b is clear: the UID is complete.
fn last_level(l: Level, r: Reader, b: u8) -> Turn
    ensures { result ≡ after_sak l r b false }
{
    let s = r.sweeps;
    match l {
        Level::One => completes(s, longer(UidSize::Single, Level::One, r, 0), b),
        Level::Two => completes(s, longer(UidSize::Double, Level::Two, r, 0), b),
        Level::Three => completes(s, longer(UidSize::Triple, Level::Three, r, 0), b),
    }
}

// Does b3 of a SAK contradict the first byte of its level? Only a level before the last begins with 88, but the third may.
fn contradicts(l: Level, more: bool, first: u8) -> bool
    ensures { result ≡ contradicts l more first }
{
    if more {
        return first != 0x88;
    }
    if selection::numbers::place(l) < 2 {
        return first == 0x88;
    }
    false
}

// A good SAK b, against the level that was sent in SELECT.
fn sak_heard(l: Level, r: Reader, b: u8) -> Turn
    ensures { result ≡ sak_heard l r (Ok b) }
{
    let more = b / 4 % 2 == 1;
    if contradicts(l, more, r.five[0]) {
        return stop(Refusal::Forbidden);
    }
    if more {
        return more_levels(l, r);
    }
    last_level(l, r, b)
}

fn hear_sak(l: Level, r: Reader, row: &[u8]) -> Turn
    ensures { result ≡ hear_sak l r row.now }
{
    match selection::heard::read_sak(row) {
        Ok(b) => sak_heard(l, r, b),
        Err(why) => stop(why),
    }
}

fn hear_silence(row: &[u8]) -> Turn
    ensures { result ≡ hear_silence row.now }
{
    if row.len() == 0 {
        return sends(blank(Phase::ReqaSent, true));
    }
    stop(Refusal::Forbidden)
}

fn not_due(r: Reader) -> Turn
    ensures { result ≡ turn r (Declines NotDue) }
{
    Turn {
        reader: r,
        answer: Answer::Declines(Refusal::NotDue),
    }
}

// What a reader does with a row, by the frame that it sent last.
pub fn hear_rules(r: Reader, row: &[u8]) -> Turn
    ensures { result ≡ hear r row.now }
{
    match r.phase {
        Phase::ReqaSent => hear_atqa(r, row),
        Phase::AnticollisionSent(l) => hear_rest(l, r, row),
        Phase::SelectSent(l) => hear_sak(l, r, row),
        Phase::HltaSent => hear_silence(row),
        Phase::WupaSent => crate::known::hear_wupa(r, row),
        Phase::UidSelectSent(l) => crate::known::hear_uid_sak(l, r, row),
        Phase::New | Phase::Selected | Phase::Finished | Phase::Stopped => not_due(r),
    }
}
