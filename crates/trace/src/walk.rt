// A log record by record, against the reader's rules. Some functions have a condition, and their callers' proofs show that they meet it.
ghost use Rattle.std.specs.Prelude.{◌≡◌, suc, ◌≤◌, ◌<◌, ◌^◌, length};
ghost use Rattle.limits.specs.Limits.{most_cards, log_room};
ghost use Rattle.air_log.specs.Reading.{record_at};
ghost use Rattle.trace_rules.specs.Trace.{start, goes, faults, onward, listed, with_card, is_listed, lists, ends, turned, heard_then, heard_passed, step, checked, walk};
ghost use Rattle.trace_rules.specs.Verdict.{fault};
ghost use Rattle.trace.specs.Loops.{is_going, goes_on, last_of};

use card::{Card, CardState};
use limits::MOST_CARDS;
use reader::{Answer, Phase, Reader, Turn};
use refusal::Refusal;
use trace_rules::{Checked, Fault, Place, Says, Stepped, Verdict};
use uid::Uid;

// Before the first record: REQA is due, and no card was found.
pub fn start() -> Place
    ensures { result ≡ start }
{
    Place {
        at: 0,
        reader: reader::within::blank(Phase::ReqaSent, true),
        cards: [sweep_steps::within::no_card(); MOST_CARDS],
        found: 0,
    }
}

fn goes(p: Place) -> Stepped
    ensures { result ≡ goes p }
{
    Stepped {
        place: p,
        says: Says::Goes,
    }
}

// The fault is so many records on.
fn faults(p: Place, on: u8, e: Refusal) -> Stepped
    ensures { result ≡ faults p on e }
{
    Stepped {
        place: p,
        says: Says::Faults { on, refusal: e },
    }
}

fn onward(p: Place, at: usize, reader: Reader) -> Place
    ensures { result ≡ onward p at reader }
{
    Place { at, reader, ..p }
}

// A card of the list.
fn listed(r: Reader) -> Card
    ensures { result ≡ listed r }
{
    Card {
        uid: r.uid,
        blocks: r.sak == 0x20,
        index: 8,
        state: CardState::Idle,
    }
}

fn with_card(p: Place, at: usize, reader: Reader) -> Place
    requires { p.found < most_cards }
    ensures { result ≡ with_card p at reader }
{
    let mut cards = p.cards;
    cards[p.found] = listed(reader);
    Place {
        at,
        reader,
        cards,
        found: p.found + 1,
    }
}

// Has one of the cards this UID?
fn is_listed(u: Uid, cards: &[Card]) -> bool
    ensures { result ≡ is_listed u cards.now }
{
    cards.iter().any(|c| uid::same_uid(u, c.uid))
}

// The reader has found a card.
fn lists(p: Place, at: usize, r: Reader) -> Stepped
    ensures { result ≡ lists p at r }
{
    if p.found >= MOST_CARDS {
        return faults(p, 1, Refusal::Argument);
    }
    if is_listed(r.uid, &p.cards[..p.found]) {
        return faults(p, 1, Refusal::Argument);
    }
    goes(with_card(p, at, r))
}

// The sweep has ended.
fn ends(log: &[u8], p: Place, at: usize, r: Reader) -> Stepped
    ensures { result ≡ ends log.now p at r }
{
    if at < log.len() {
        return faults(p, 2, Refusal::NotDue);
    }
    Stepped {
        place: onward(p, at, r),
        says: Says::Content,
    }
}

// The reader's turn.
fn turned(log: &[u8], p: Place, at: usize, t: Turn) -> Stepped
    ensures { result ≡ turned log.now p at t }
{
    match t.answer {
        Answer::Sends(_) => goes(onward(p, at, t.reader)),
        Answer::Finds(_) => lists(p, at, t.reader),
        Answer::Selects => faults(p, 1, Refusal::Forbidden),
        Answer::Finishes => ends(log, p, at, t.reader),
        Answer::Declines(e) => faults(p, 1, e),
    }
}

// What was heard is due at a place.
fn heard_step(log: &[u8], stamp: usize, at: usize, p: Place) -> Stepped
    ensures { result ≡ heard_then log.now p (record_at stamp log.now at) (heard_passed (record_at stamp log.now at)) }
{
    let mut row = [0u8; 8191];
    match crate::reading::heard_at(log, stamp, at, &mut row) {
        Ok(h) => {
            let t = reader::within::hear_rules(p.reader, &row[..h.bits]);
            turned(log, p, h.next, t)
        }
        Err(e) => faults(p, 1, e),
    }
}

// Two records: the frame that the reader has sent, and what was heard.
fn step(log: &[u8], stamp: usize, p: Place) -> Stepped
    ensures { result ≡ step stamp log.now p }
{
    let mut frame = [0u8; 81];
    reader::within::put_frame(p.reader, &mut frame);
    let bits = reader::within::frame_bits(p.reader);
    match crate::reading::sent_at(log, stamp, p.at, &frame[..bits]) {
        Ok(at) => heard_step(log, stamp, at, p),
        Err(e) => faults(p, 0, e),
    }
}

// The record with this index is at fault.
pub fn fault(index: usize, refusal: Refusal) -> Verdict
    ensures { result ≡ fault index refusal }
{
    Err(Fault { index, refusal })
}

pub fn checked(verdict: Verdict, p: Place) -> Checked
    ensures { result ≡ checked verdict p }
{
    let cards = p.cards;
    Checked {
        verdict,
        cards,
        found: p.found,
    }
}

fn is_going(s: Says) -> bool
    ensures { result ≡ is_going s }
{
    matches!(s, Says::Goes)
}

// Does the check go on, after so many turns of at most that many?
fn goes_on(s: Stepped, turn: usize, most: usize) -> bool
    ensures { result ≡ goes_on s turn most }
{
    turn < most && is_going(s.says)
}

// What the last turn says, before which there are i records.
fn verdict(i: usize, s: Stepped) -> Checked
    requires { i < 2 ^ 32 }
    ensures { result ≡ last_of i s }
{
    match s.says {
        Says::Goes => checked(fault(i + 2, Refusal::Length), s.place),
        Says::Content => checked(Ok(()), s.place),
        Says::Faults { on, refusal } => checked(fault(i + on as usize, refusal), s.place),
    }
}

// All records.
pub fn walk(log: &[u8], stamp: usize) -> Checked
    requires { length log.now ≤ log_room }
    ensures { result ≡ walk (suc (length log.now)) stamp log.now 0 start }
{
    let mut s = step(log, stamp, start());
    let mut turn: usize = 0;
    // Kept: no index is counted: the loop ends with the reader, and its bound is the definition's.
    while goes_on(s, turn, log.len()) {
        s = step(log, stamp, s.place);
        turn += 1;
    }
    verdict(2 * turn, s)
}
