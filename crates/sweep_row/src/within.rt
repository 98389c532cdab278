// The sweep over a lent row, plain or one that remembers (T-14), card by card: all that branches is on values. And the plain sweep of our own crates
// that have their cards in an array. Called by our own crates only.
ghost use Rattle.std.specs.Prelude.{◌≡◌, ◌≤◌, length};
ghost use Rattle.limits.specs.Limits.{most_cards};
ghost use Rattle.sweep.specs.Sweep.{call, sweep_of};
ghost use Rattle.sweep.specs.Promise.{Sweeps};
ghost use Rattle.sweep_row.specs.Row.{swept_row, Ready, Turns};
ghost use Rattle.sweep_row.specs.Under.{Called, Opened};

use crate::RowSwept;
use crate::air::Air;
use crate::seen::Seen;
use card::Card;
use limits::MOST_CARDS;
use memory::Path;
use memory::within::Hears;
use refusal::Refusal;
use sweep::{Start, Swept};

// going: the card at a place is asked for; at: its place. In a pass over the row its cards come one by one, the last first. The first pass
// looks whether the row is a field that a sweep takes; in each pass after it the cards take the frame that the reader has out. tick: that of the
// log's first record. path: what a reader that remembers knows (T-14); the plain reader's is empty.
#[derive(Clone, Copy)]
pub struct Progress {
    pub going: bool,
    pub at: usize,
    pub swept: RowSwept,
    pub looking: bool,
    pub cards: usize,
    pub seen: Seen,
    pub air: Air,
    pub tick: u32,
    pub path: Path,
}

// A card after its turn, and how far the sweep is.
#[derive(Clone, Copy)]
pub struct Turned {
    pub card: Card,
    pub next: Progress,
}

// One card's turn: it is looked at, or takes the frame; after the last of a pass the exchange is over.
fn turn<H: Hears>(p: Progress, c: Card, log: &mut [u8], list: &mut [u8]) -> Turned
    requires { Ready H.remembers p c log.old list.old }
    ensures { Turns H.remembers p c log.old list.old result log.new list.new }
{
    if p.looking {
        return Turned {
            card: c,
            next: crate::pass::look(p, c),
        };
    }
    let h = crate::air::hear_card(p.air, p.swept.reader, c);
    if p.at == 0 {
        let f = crate::finish::finish::<H>(p, h.air, log, list);
        return Turned {
            card: h.card,
            next: crate::pass::again(p, f),
        };
    }
    Turned {
        card: h.card,
        next: crate::pass::onward(p, h.air),
    }
}

// The sweep's tests, in their order; then the first pass. An empty row is swept at once.
fn opening<H: Hears>(start: Start, n: usize, log: &mut [u8], list: &mut [u8]) -> Progress
    ensures { Opened H.remembers start n log.old list.old result log.new list.new }
{
    let r = start.reader;
    if !reader::within::is_new(r.phase) {
        return crate::pass::stopped(crate::begin::refused(r, Refusal::NotDue));
    }
    if log.len() < limits::LOG_ROOM {
        return crate::pass::stopped(crate::begin::refused(r, Refusal::Room));
    }
    if list.len() < limits::LIST_ROOM {
        return crate::pass::stopped(crate::begin::refused(r, Refusal::Room));
    }
    if n > MOST_CARDS {
        return crate::pass::stopped(crate::begin::refused(r, Refusal::Argument));
    }
    if n == 0 {
        return crate::pass::stopped(crate::begin::empty::<H>(start.tick, log, list));
    }
    crate::pass::looks(start, n)
}

// The sweep over a lent row, of the reader that hears as H does.
pub fn over<H: Hears>(start: Start, cards: &mut [Card], log: &mut [u8], list: &mut [u8]) -> RowSwept
    ensures { Called H.remembers start cards.old (length cards.old) log.old list.old (swept_row result cards.new) log.new list.new }
{
    let mut p = opening::<H>(start, cards.len(), log, list);
    // Kept: a card is taken in each turn, many times over the row: the place is the state's own.
    while p.going {
        let t = turn::<H>(p, cards[p.at], log, list);
        cards[p.at] = t.card;
        p = t.next;
    }
    p.swept
}

// The array after the sweep, and what the sweep over the lent row gave.
#[derive(Clone, Copy)]
pub struct ArraySwept {
    pub cards: [Card; MOST_CARDS],
    pub swept: RowSwept,
}

impl ArraySwept {
    // The same as the sweep over the array gives it.
    pub fn whole(self) -> Swept
        ensures { result ≡ swept_row self.swept self.cards }
    {
        let cards = self.cards;
        Swept {
            reader: self.swept.reader,
            answer: self.swept.answer,
            cards,
            frames: self.swept.frames,
            logged: self.swept.logged,
            found: self.swept.found,
        }
    }
}

// The first n cards of the array are lent as the row; the others are unchanged.
pub fn sweep_array(
    start: Start,
    mut cards: [Card; MOST_CARDS],
    n: usize,
    log: &mut [u8],
    list: &mut [u8],
) -> ArraySwept
    requires { n ≤ most_cards }
    ensures { (call (swept_row result.swept result.cards) log.new list.new ≡ sweep_of start cards n log.old list.old) × Sweeps start cards n log.old list.old (swept_row result.swept result.cards) log.new list.new }
{
    let swept = crate::sweep_row(start, &mut cards[..n], log, list);
    ArraySwept { cards, swept }
}

// The plain sweep's answer, by the lent row. An array holds no row of more cards than the limit, which the plain sweep declines.
pub fn sweep_by_row(
    start: Start,
    cards: [Card; MOST_CARDS],
    n: usize,
    log: &mut [u8],
    list: &mut [u8],
) -> Swept
    ensures list_after { call result log.new list.new ≡ sweep_of start cards n log.old list.old }
    ensures sweeps { Sweeps start cards n log.old list.old result log.new list.new }
{
    if n > MOST_CARDS {
        return sweep::sweep(start, cards, n, log, list);
    }
    sweep_array(start, cards, n, log, list).whole()
}
