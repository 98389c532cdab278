// How far a sweep over a row is, from one card to the next, on values: the row is only read and stored.
ghost use Rattle.std.specs.Prelude.{◌≡◌, true, ◌≤◌, ◌<◌};
ghost use Rattle.limits.specs.Limits.{most_cards};
ghost use Rattle.sweep_rules.specs.Demand.{Typed};
ghost use Rattle.sweep_row.specs.Row.{stopped, looks, again, onward, back, decided, looked, seen_with};

use crate::RowSwept;
use crate::air::Air;
use crate::finish::RowReached;
use crate::seen::Seen;
use crate::within::Progress;
use card::Card;
use refusal::Refusal;
use sweep::Start;

// It is over.
pub fn stopped(s: RowSwept) -> Progress
    ensures { result ≡ stopped s }
{
    Progress {
        going: false,
        at: 0,
        swept: s,
        looking: false,
        cards: 0,
        seen: crate::seen::none(),
        air: crate::air::silence(),
        tick: 0,
        path: memory::within::empty(),
    }
}

// The first pass over a row of n cards.
pub fn looks(start: Start, n: usize) -> Progress
    requires { 0 < n }
    ensures { result ≡ looks start n }
{
    Progress {
        going: true,
        at: n - 1,
        looking: true,
        cards: n,
        tick: start.tick,
        ..stopped(crate::begin::refused(start.reader, Refusal::Argument))
    }
}

// The next pass: the reader has a frame out, or it is over.
pub fn again(p: Progress, f: RowReached) -> Progress
    requires { 0 < p.cards }
    ensures { result ≡ again p f }
{
    Progress {
        going: crate::finish::goes_on(f.swept),
        at: p.cards - 1,
        swept: f.swept,
        looking: false,
        air: crate::air::silence(),
        path: f.path,
        ..p
    }
}

// The next card of a pass in which the cards take a frame.
pub fn onward(p: Progress, air: Air) -> Progress
    requires { 0 < p.at }
    ensures { result ≡ onward p air }
{
    Progress {
        at: p.at - 1,
        air,
        ..p
    }
}

// The next card of the first pass.
fn back(p: Progress, seen: Seen) -> Progress
    requires { 0 < p.at }
    ensures { result ≡ back p seen }
{
    Progress {
        at: p.at - 1,
        seen,
        ..p
    }
}

// All cards are seen: REQA goes out, or 6.
fn decide(p: Progress, s: Seen) -> Progress
    requires { 0 < p.cards }
    ensures { result ≡ decided p s }
{
    if s.fits {
        again(p, crate::begin::first())
    } else {
        stopped(p.swept)
    }
}

// A card of the first pass is looked at.
pub fn look(p: Progress, c: Card) -> Progress
    requires { (p.at < p.cards) × (p.cards ≤ most_cards) }
    ensures value { result ≡ looked p c }
    ensures typed { (seen_with p.seen p.at p.cards c).fits ≡ true → Typed c }
{
    let s = crate::seen::see_card(p.seen, p.at, p.cards, c);
    if p.at == 0 { decide(p, s) } else { back(p, s) }
}
