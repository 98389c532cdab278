// Document 01, "The reader and the sweep": the plain sweep, over values.
// What it shares with the sweep that remembers (T-14).
#![tactic(auto)]

pub mod within;

ghost use Rattle.std.specs.Prelude.{◌≡◌};
ghost use Rattle.sweep.specs.Sweep.{call, sweep_of};
ghost use Rattle.sweep.specs.Promise.{Sweeps};

use card::Card;
use limits::MOST_CARDS;
use memory::within::Plain;
use reader::{Answer, Reader};

// What a sweep begins with: a new reader, and the tick of the log's first record (T-09). Each record after it has the next tick; ticks wrap.
#[derive(Clone, Copy)]
pub struct Start {
    pub reader: Reader,
    pub tick: u32,
}

// After a sweep: the reader and its last answer, Finishes or why the sweep was declined; the cards; how many frames the reader sent, how many
// bytes of the log are written, and how many UIDs stand in the list.
// Kept: the number counts no elements of this array.
#[derive(Clone, Copy)]
pub struct Swept {
    pub reader: Reader,
    pub answer: Answer,
    pub cards: [Card; MOST_CARDS],
    pub frames: usize,
    pub logged: usize,
    pub found: usize,
}

// The reader finds every idle card of a field, the first n cards, and halts it. Each frame and what was heard after it goes into the lent log,
// each UID into the lent list, from their fronts on. Declined, with all unchanged: 11, the reader is not new; 1, log or list is too short; 6,
// the field is not one that a sweep takes.
// Kept: an array and how many of it, as README and docs name this call over values.
pub fn sweep(
    start: Start,
    cards: [Card; MOST_CARDS],
    n: usize,
    log: &mut [u8],
    list: &mut [u8],
) -> Swept
    ensures list_after { call result log.new list.new ≡ sweep_of start cards n log.old list.old }
    ensures sweeps { Sweeps start cards n log.old list.old result log.new list.new }
{
    within::call::<Plain>(start, cards, n, log, list)
}
