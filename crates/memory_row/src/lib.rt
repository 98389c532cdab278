// Document 02, T-14: the sweep that remembers, over a lent row of cards, each changed in place. It is the plain one's pass over the row (crate
// sweep_row), with a reader that has a path.
#![tactic(auto)]

ghost use Rattle.std.specs.Prelude.{◌≡◌, length};
ghost use Rattle.sweep.specs.Sweep.{call};
ghost use Rattle.sweep_row.specs.Row.{swept_row};
ghost use Rattle.memory_sweep.specs.Recalled.{recall_of};
ghost use Rattle.memory_sweep.specs.Promise.{Recalls};

use card::Card;
use memory::within::Remembering;
use sweep::Start;
use sweep_row::RowSwept;

pub mod within;

// The reader finds every idle card of the lent row, which is the field, and halts it. What it answers, what becomes of the cards and what stands in log
// and list is what `memory_sweep::sweep` says of them as values: the plain sweep's list and cards, in fewer frames. Declined, with all unchanged: 11, the
// reader is not new; 1, log or list is too short; 6, the row has more cards than the limit or is not a field that a sweep takes.
pub fn sweep_row(start: Start, cards: &mut [Card], log: &mut [u8], list: &mut [u8]) -> RowSwept
    ensures { (call (swept_row result cards.new) log.new list.new ≡ recall_of start cards.old (length cards.old) log.old list.old) × Recalls start cards.old (length cards.old) log.old list.old (swept_row result cards.new) log.new list.new }
{
    sweep_row::within::over::<Remembering>(start, cards, log, list)
}
