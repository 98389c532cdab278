// Document 01, "The reader and the sweep": the sweep over a lent row of cards, each changed in place. The row is not copied.
#![tactic(auto)]

ghost use Rattle.std.specs.Prelude.{◌≡◌, length};
ghost use Rattle.sweep.specs.Sweep.{call, sweep_of};
ghost use Rattle.sweep.specs.Promise.{Sweeps};
ghost use Rattle.sweep_row.specs.Row.{swept_row};

use card::Card;
use memory::within::Plain;
use reader::{Answer, Reader};
use sweep::Start;

mod air;
mod begin;
mod finish;
mod pass;
mod seen;
pub mod within;

// After a sweep: the reader and its last answer, Finishes or why the sweep was declined; how many frames the reader sent, how many bytes of the
// log are written, and how many UIDs stand in the list.
#[derive(Clone, Copy)]
pub struct RowSwept {
    pub reader: Reader,
    pub answer: Answer,
    pub frames: usize,
    pub logged: usize,
    pub found: usize,
}

// The reader finds every idle card of the lent row and halts it. Each frame and what was heard after it goes into the lent log, each UID into
// the lent list, from their fronts on. Declined, with all unchanged: 11, the reader is not new; 1, log or list is too short; 6, the row has more
// cards than the limit or is not a field that a sweep takes.
pub fn sweep_row(start: Start, cards: &mut [Card], log: &mut [u8], list: &mut [u8]) -> RowSwept
    ensures list_after { call (swept_row result cards.new) log.new list.new ≡ sweep_of start cards.old (length cards.old) log.old list.old }
    ensures sweeps { Sweeps start cards.old (length cards.old) log.old list.old (swept_row result cards.new) log.new list.new }
{
    within::over::<Plain>(start, cards, log, list)
}
