// The loop over a field: an exchange is a reader frame and what is heard after it. Called by our own crates only.
ghost use Rattle.std.specs.Prelude.{◌≡◌, ◌≤◌, ◌<◌, take};
ghost use Rattle.limits.specs.Limits.{most_cards};
ghost use Rattle.wake_rules.specs.Wake.{wake};
ghost use Rattle.wake_rules.specs.Claim.{Typed};
ghost use Rattle.wake.specs.Wake.{done};
ghost use Rattle.wake.specs.Steps.{started, stepped, goes_on};

use crate::Woken;
use card::Card;
use limits::MOST_CARDS;
use uid::Uid;

// WUPA is out.
fn starts(u: Uid, cards: [Card; MOST_CARDS]) -> Woken
    ensures value { result ≡ started u cards }
    ensures typed { Typed u }
{
    let t = reader::known::wakes(u);
    Woken {
        reader: t.reader,
        answer: t.answer,
        cards,
        frames: 0,
    }
}

// The reader's frame, taken by the first n cards, and the reader's turn on what it heard.
fn step(w: Woken, n: usize) -> Woken
    requires { (n ≤ most_cards) × (w.frames < 4) }
    ensures { result ≡ stepped w n }
{
    let mut frame = [0u8; 81];
    reader::within::put_frame(w.reader, &mut frame);
    let bits = reader::within::frame_bits(w.reader);
    let mut heard = [0u8; 45];
    let t = field::within::take_all(w.cards, n, &frame[..bits], &mut heard);
    let next = reader::within::hear_rules(w.reader, &heard[..t.bits]);
    let cards = t.cards;
    Woken {
        reader: next.reader,
        answer: next.answer,
        cards,
        frames: w.frames + 1,
    }
}

// Is a frame out, and may the reader send one more?
fn goes_on(w: Woken, most: usize) -> bool
    ensures { result ≡ goes_on w most }
{
    w.frames < most && sweep_steps::within::goes(w.answer)
}

// The whole run over the first n cards: a frame more than the UID has levels.
pub fn run(u: Uid, cards: [Card; MOST_CARDS], n: usize) -> Woken
    requires { n ≤ most_cards }
    ensures value { result ≡ done cards n (wake u (take n cards)) }
    ensures typed { Typed u }
{
    let most = uid::level_count(u.size) + 1;
    let mut w = starts(u, cards);
    // Kept: no index is counted: the loop ends with the reader, and its bound is the definition's.
    while goes_on(w, most) {
        w = step(w, n);
    }
    w
}
