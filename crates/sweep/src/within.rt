// The call of both sweeps: the plain one, and the one that remembers (T-14). Called by our own crates only, which show that what is written fits.
ghost use Rattle.std.specs.Prelude.{◌≡◌, take};
ghost use Rattle.rows.specs.Rows.{All};
ghost use Rattle.sweep_rules.specs.Demand.{Typed};
ghost use Rattle.sweep_steps.specs.Loop.{swept_if};
ghost use Rattle.sweep.specs.Sweep.{call, refused, call_of};
ghost use Rattle.sweep.specs.Promise.{Terms};
ghost use Rattle.sweep.specs.Shared.{FitsRoom};

use crate::{Start, Swept};
use card::Card;
use limits::MOST_CARDS;
use memory::within::Hears;
use reader::{Answer, Reader};
use refusal::Refusal;

// Declined before a frame is sent.
fn refused(r: Reader, cards: [Card; MOST_CARDS], e: Refusal) -> Swept
    ensures { result ≡ refused r cards e }
{
    Swept {
        reader: r,
        answer: Answer::Declines(e),
        cards,
        frames: 0,
        logged: 0,
        found: 0,
    }
}

// The tests 11, 1 and 6 in their order, all unchanged where one declines; else the sweep of the reader that hears as H does.
pub fn call<H: Hears>(
    start: Start,
    cards: [Card; MOST_CARDS],
    n: usize,
    log: &mut [u8],
    list: &mut [u8],
) -> Swept
    requires { FitsRoom (swept_if H.remembers) (take n cards) }
    ensures list_after { call result log.new list.new ≡ call_of (swept_if H.remembers) start cards n log.old list.old }
    ensures all { Terms start cards n log.old list.old → All Typed (take n cards) }
{
    let r = start.reader;
    if !reader::within::is_new(r.phase) {
        return refused(r, cards, Refusal::NotDue);
    }
    if log.len() < limits::LOG_ROOM {
        return refused(r, cards, Refusal::Room);
    }
    if list.len() < limits::LIST_ROOM {
        return refused(r, cards, Refusal::Room);
    }
    if n > MOST_CARDS {
        return refused(r, cards, Refusal::Argument);
    }
    if !sweep_steps::within::is_within(&cards[..n]) {
        return refused(r, cards, Refusal::Argument);
    }
    let p = sweep_steps::within::run::<H>(cards, n, start.tick, log, list);
    let cards = p.cards;
    Swept {
        reader: p.memory.turn.reader,
        answer: p.memory.turn.answer,
        cards,
        frames: p.frames,
        logged: p.logged,
        found: p.found,
    }
}
