// T-03: one known card of a lent row of cards is woken and selected, and no other is disturbed; the row's cards are changed in place.
#![tactic(auto)]

ghost use Rattle.std.specs.Prelude.{◌≡◌, length};
ghost use Rattle.uid.specs.Uid.{uid_bytes};
ghost use Rattle.wake.specs.Wake.{wake_of};
ghost use Rattle.wake.specs.Promise.{Wakens};
ghost use Rattle.wake_row.specs.Row.{row_of, woken_row};

use card::Card;
use limits::MOST_CARDS;
use reader::{Answer, Reader};
use uid::Uid;
use wake::Woken;

// After the call: the reader and its last answer, Selects or why it was declined; how many frames the reader sent.
#[derive(Clone, Copy)]
pub struct RowWoken {
    pub reader: Reader,
    pub answer: Answer,
    pub frames: usize,
}

impl From<Woken> for RowWoken {
    ghost from_gives = { λ w s. s ≡ row_of w };

    fn from(w: Woken) -> RowWoken {
        RowWoken {
            reader: w.reader,
            answer: w.answer,
            frames: w.frames,
        }
    }
}

// The call over the first n cards of an array, as values.
fn woken(r: Reader, u: Uid, cards: [Card; MOST_CARDS], n: usize) -> Woken
    ensures value { result ≡ wake_of r (uid_bytes u) cards n }
    ensures wakens { Wakens r (uid_bytes u) cards n result }
{
    wake::wake(r, &u.bytes[..uid::byte_count(u.size)], cards, n)
}

// The reader sends WUPA and selects the one card with this UID in the lent row, which is the field. What it answers and what becomes of the cards is
// what `wake` says of them as values. Declined, with all unchanged: 11, the reader is not new; 6, the UID is not valid, or the row has more cards than
// the limit or is not a field that a sweep takes. 7: the UID is not there, and all cards are as they were.
pub fn wake_row(r: Reader, u: Uid, cards: &mut [Card]) -> RowWoken
    ensures { (woken_row result cards.new ≡ wake_of r (uid_bytes u) cards.old (length cards.old)) × Wakens r (uid_bytes u) cards.old (length cards.old) (woken_row result cards.new) }
{
    let n = cards.len();
    let mut held = [sweep_steps::within::no_card(); MOST_CARDS];
    if n > MOST_CARDS {
        return RowWoken::from(woken(r, u, held, n));
    }
    held[..n].copy_from_slice(cards);
    let w = woken(r, u, held, n);
    cards.copy_from_slice(&w.cards[..n]);
    RowWoken::from(w)
}
