// Functions that only crates of this repository call: each has a condition, and its callers' proofs show that they meet it.
ghost use Rattle.std.specs.Prelude.{◌≡◌, ◌*◌, ◌≤◌, length};
ghost use Rattle.kept.specs.Kept.{state_size};
ghost use Rattle.kept_reader.specs.KeptReader.{reader_of, turn_left, kept_in, kept_after};
ghost use Rattle.kept_wake.specs.KeptWake.{woken_turn, woken_number, row_left, Says};

use reader_link::LinkReader;
use wake::Woken;

// Keeps what waking a card by value gave, s, in the state that says the reader x and in the row of n cards' states, and gives the number for C.
// A call that is refused writes no card.
pub fn settle(x: LinkReader, s: Woken, n: usize, state: &mut [u8], cards: &mut [u8]) -> usize
    requires { (state_size ≤ length state.old) × (x ≡ reader_of state.old) × (state_size * n ≤ length cards.old) }
    ensures value { result ≡ woken_number s }
    ensures state_after { state.new ≡ turn_left state.old (woken_turn x s) }
    ensures state_after_2 { kept_in state.new ≡ kept_after state.old (woken_turn x s) }
    ensures cards_after { cards.new ≡ row_left n cards.old s }
    ensures says { Says n s cards.new }
{
    let told = kept_reader::within::settle(x, crate::turn_of(s.reader, x.link, s.answer), state);
    if kept_reader::selection_refuses(s.answer) {
        return told;
    }
    kept_field::within::put_cards(s.cards, n, cards);
    s.frames
}
