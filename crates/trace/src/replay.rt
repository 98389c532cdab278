// The plain sweep over the listed cards, record by record against the log. Some functions have a condition, and their callers' proofs show that
// they meet it.
ghost use Rattle.std.specs.Prelude.{◌≡◌, ◌≤◌, ◌<◌, ◌^◌, take};
ghost use Rattle.limits.specs.Limits.{most_cards};
ghost use Rattle.air_log.specs.Log.{sent_heard};
ghost use Rattle.air_log.specs.Reading.{record_at};
ghost use Rattle.sweep_rules.specs.Run.{sweep};
ghost use Rattle.trace_rules.specs.Check.{heard_as, heard_compared, compared, differs};
ghost use Rattle.trace.specs.Loops.{played, next_place, plays_on, finish};

use crate::walk::fault;
use card::Card;
use limits::MOST_CARDS;
use reader::{Phase, Turn};
use refusal::Refusal;
use trace_rules::{Differs, Verdict};

// After an exchange of the sweep: the reader's turn, the cards, and the exchange's records held to those of the log.
#[derive(Clone, Copy)]
pub struct Played {
    pub turn: Turn,
    pub cards: [Card; MOST_CARDS],
    pub compared: Result<usize, Differs>,
}

// The record of what was heard, if it is this row.
fn heard_as(log: &[u8], stamp: usize, at: usize, heard: &[u8]) -> Result<usize, Differs>
    ensures { result ≡ heard_compared (heard_as log.now heard.now (record_at stamp log.now at)) }
{
    let mut row = [0u8; 8191];
    let Ok(h) = crate::reading::heard_at(log, stamp, at, &mut row) else {
        return Err(Differs::Second);
    };
    if rows::is_same(&row[..h.bits], heard) {
        Ok(h.next)
    } else {
        Err(Differs::Second)
    }
}

// An exchange held to the two records at a place.
// Kept: no comparison of two values of a type: two records against a place of the log.
fn compare(
    log: &[u8],
    stamp: usize,
    at: usize,
    frame: &[u8],
    heard: &[u8],
) -> Result<usize, Differs>
    ensures { result ≡ compared stamp log.now (sent_heard frame.now heard.now) at }
{
    match crate::reading::sent_at(log, stamp, at, frame) {
        Ok(next) => heard_as(log, stamp, next, heard),
        Err(_) => Err(Differs::First),
    }
}

// The reader's frame, taken by the first n cards, and what it does with what it heard.
fn play(log: &[u8], stamp: usize, at: usize, t: Turn, cards: [Card; MOST_CARDS], n: usize) -> Played
    requires { n ≤ most_cards }
    ensures { result ≡ played stamp log.now at t cards n }
{
    let r = t.reader;
    let mut frame = [0u8; 81];
    reader::within::put_frame(r, &mut frame);
    let bits = reader::within::frame_bits(r);
    let mut heard = [0u8; 45];
    let x = field::within::take_all(cards, n, &frame[..bits], &mut heard);
    let cards = x.cards;
    Played {
        turn: reader::within::hear_rules(r, &heard[..x.bits]),
        cards,
        compared: compare(log, stamp, at, &frame[..bits], &heard[..x.bits]),
    }
}

// The place of the records that come next; 0 where none do.
fn next_place(c: Result<usize, Differs>) -> usize
    ensures { result ≡ next_place c }
{
    c.unwrap_or(0)
}

// Does the sweep go on, after so many frames?
fn goes_on(p: Played, frames: usize) -> bool
    ensures { result ≡ plays_on p frames }
{
    frames < limits::MOST_FRAMES && p.compared.is_ok() && sweep_steps::within::goes(p.turn.answer)
}

// What the last exchange says, before which there are i records, in a log of so many bytes.
fn verdict(i: usize, p: Played, size: usize) -> Verdict
    requires { i < 2 ^ 32 }
    ensures { result ≡ finish i size p }
{
    match p.compared {
        Ok(at) => {
            if at < size {
                fault(i + 2, Refusal::Forbidden)
            } else {
                Ok(())
            }
        }
        Err(Differs::First) => fault(i, Refusal::Forbidden),
        Err(Differs::Second) => fault(i + 1, Refusal::Forbidden),
    }
}

// The first record in which the log differs from the plain sweep over the first n cards.
pub fn replay(log: &[u8], stamp: usize, cards: [Card; MOST_CARDS], n: usize) -> Verdict
    requires { n ≤ most_cards }
    ensures { result ≡ differs stamp log.now 0 (sweep (take n cards)).exchanges 0 }
{
    let first = reader::within::sends(reader::within::blank(Phase::ReqaSent, true));
    let mut p = play(log, stamp, 0, first, cards, n);
    let mut frames: usize = 1;
    // Kept: no index is counted: the loop ends with the reader, and its bound is the definition's.
    while goes_on(p, frames) {
        p = play(log, stamp, next_place(p.compared), p.turn, p.cards, n);
        frames += 1;
    }
    verdict(2 * (frames - 1), p, log.len())
}
