// T-03: one known card of a field is woken and selected, and no other is disturbed; over values.
#![tactic(auto)]

ghost use Rattle.std.specs.Prelude.{◌≡◌};
ghost use Rattle.wake.specs.Wake.{refused, wake_of};
ghost use Rattle.wake.specs.Promise.{Wakens};

use card::Card;
use limits::MOST_CARDS;
use reader::{Answer, Reader};
use refusal::Refusal;

// One exchange, and the loop. Only the crates of this repository call them.
pub mod within;

// After the call: the reader and its last answer, Selects or why it was declined; the cards; how many frames the reader sent.
#[derive(Clone, Copy)]
pub struct Woken {
    pub reader: Reader,
    pub answer: Answer,
    pub cards: [Card; MOST_CARDS],
    pub frames: usize,
}

// Declined before a frame is sent.
// Kept: its twin in slots makes another answer; two values put together are no plainer as one function.
fn refused(r: Reader, cards: [Card; MOST_CARDS], e: Refusal) -> Woken
    ensures { result ≡ refused r cards e }
{
    Woken {
        reader: r,
        answer: Answer::Declines(e),
        cards,
        frames: 0,
    }
}

// The reader sends WUPA and selects the one card with this UID in a field, the first n cards. That card is then Active, or Active* if it was halted,
// and every other is as it was. Declined, with all unchanged: 11, the reader is not new; 6, the bytes are no valid UID, or the field is not one that a
// sweep takes. 7: the UID is not there, and all cards are as they were.
// Kept: an array and how many of it, as README and docs name this call over values.
pub fn wake(r: Reader, bytes: &[u8], cards: [Card; MOST_CARDS], n: usize) -> Woken
    ensures value { result ≡ wake_of r bytes.now cards n }
    ensures wakens { Wakens r bytes.now cards n result }
{
    if !reader::within::is_new(r.phase) {
        return refused(r, cards, Refusal::NotDue);
    }
    let Ok(u) = uid::new_uid(bytes) else {
        return refused(r, cards, Refusal::Argument);
    };
    if n > MOST_CARDS {
        return refused(r, cards, Refusal::Argument);
    }
    if !sweep_steps::within::is_within(&cards[..n]) {
        return refused(r, cards, Refusal::Argument);
    }
    within::run(u, cards, n)
}
