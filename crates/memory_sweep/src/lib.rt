// Document 02, T-14: the sweep that remembers, over values. It takes and gives what the plain sweep does (crate sweep), in fewer frames; the call and its
// loop are the plain one's, with a reader that has a path.
#![tactic(auto)]

ghost use Rattle.std.specs.Prelude.{◌≡◌};
ghost use Rattle.sweep.specs.Sweep.{call};
ghost use Rattle.memory_sweep.specs.Recalled.{recall_of};
ghost use Rattle.memory_sweep.specs.Promise.{Recalls};

use card::Card;
use limits::MOST_CARDS;
use memory::within::Remembering;
use sweep::{Start, Swept};

// The reader finds every idle card of a field, the first n cards, and halts it, as the plain sweep does: the same list and the same cards. It keeps the
// branches that it has not taken, and so sends fewer frames; the log records its own. Declined, with all unchanged: 11, the reader is not new; 1, log or
// list is too short; 6, the field is not one that a sweep takes.
// Kept: an array and how many of it, as README and docs name this call over values.
pub fn sweep(
    start: Start,
    cards: [Card; MOST_CARDS],
    n: usize,
    log: &mut [u8],
    list: &mut [u8],
) -> Swept
    ensures list_after { call result log.new list.new ≡ recall_of start cards n log.old list.old }
    ensures recalls { Recalls start cards n log.old list.old result log.new list.new }
{
    sweep::within::call::<Remembering>(start, cards, n, log, list)
}
