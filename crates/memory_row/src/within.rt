// The sweep that remembers (T-14) over a lent row, for our own crates that have their cards in an array.
ghost use Rattle.std.specs.Prelude.{◌≡◌, ◌≤◌};
ghost use Rattle.limits.specs.Limits.{most_cards};
ghost use Rattle.sweep.specs.Sweep.{call};
ghost use Rattle.sweep_row.specs.Row.{swept_row};
ghost use Rattle.memory_sweep.specs.Recalled.{recall_of};
ghost use Rattle.memory_sweep.specs.Promise.{Recalls};
ghost use Rattle.memory_row.specs.Row.{Promises};

use card::Card;
use limits::MOST_CARDS;
use sweep::{Start, Swept};
use sweep_row::within::ArraySwept;

// The first n cards of the array are lent as the row; the others are unchanged.
pub fn sweep_array(
    start: Start,
    mut cards: [Card; MOST_CARDS],
    n: usize,
    log: &mut [u8],
    list: &mut [u8],
) -> ArraySwept
    requires { n ≤ most_cards }
    ensures { Promises start cards n log.old list.old (swept_row result.swept result.cards) log.new list.new }
{
    let swept = crate::sweep_row(start, &mut cards[..n], log, list);
    ArraySwept { cards, swept }
}

// The answer of `memory_sweep::sweep`, by the lent row. An array holds no row of more cards than the limit, which that call declines.
pub fn sweep_by_row(
    start: Start,
    cards: [Card; MOST_CARDS],
    n: usize,
    log: &mut [u8],
    list: &mut [u8],
) -> Swept
    ensures list_after { call result log.new list.new ≡ recall_of start cards n log.old list.old }
    ensures recalls { Recalls start cards n log.old list.old result log.new list.new }
{
    if n > MOST_CARDS {
        return memory_sweep::sweep(start, cards, n, log, list);
    }
    sweep_array(start, cards, n, log, list).whole()
}
