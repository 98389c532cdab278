// Functions that only crates of this repository call: each has a condition, and its callers' proofs show that they meet it.
ghost use Rattle.std.specs.Prelude.{◌≡◌, ◌*◌, ◌≤◌, length, take};
ghost use Rattle.limits.specs.Limits.{most_cards};
ghost use Rattle.kept.specs.Kept.{state_size};
ghost use Rattle.rows.specs.Rows.{overlay};
ghost use Rattle.kept_field.specs.KeptField.{cards_in, field_in, cards_left, swept_bytes, swept_in, swept_kept, swept_number, state_left, row_left, Says};

use card::Card;
use limits::MOST_CARDS;
use reader::Reader;
use reader_link::Link;
use sweep::Swept;

// The first n cards of a row of states, as the array that a sweep takes: as many as it holds, then cards of zeros.
pub fn cards_of(b: &[u8], n: usize) -> [Card; MOST_CARDS]
    requires { state_size * n ≤ length b.now }
    ensures { result ≡ field_in n b.now }
{
    kept::states::read(
        n,
        kept_card::card_of(&[]),
        b,
        |_i, state| kept_card::card_of(state),
    )
}

// Writes the first n cards of an array, as many as it has, back into a row of states: of each state its first 20 bytes.
pub fn put_cards(cards: [Card; MOST_CARDS], n: usize, b: &mut [u8])
    requires { state_size * n ≤ length b.old }
    ensures b_after { b.new ≡ cards_left b.old (take n cards) }
    ensures b_after_2 { cards_in (length (take n cards)) b.new ≡ take n cards }
    ensures cards_len { length cards ≡ most_cards }
{
    // Kept: tried as one function of `kept::states` with kept_slots. No proof yet covers a bound `Fn(T) -> [u8; N]`, and no clause can speak of every
    // property of a value, which the cards read back need.
    for i in 0..kept::few(n) {
        rows::within::put(b, kept::STATE_SIZE * i, &kept_card::card_bytes(cards[i]));
    }
}

// Writes what a sweep leaves of the reader into its state: the reader, its link k, and what is told of the sweep.
fn keep(r: Reader, k: Link, logged: usize, frames: usize, state: &mut [u8])
    requires { state_size ≤ length state.old }
    ensures state_after { state.new ≡ overlay state.old 0 (swept_bytes r k logged frames) }
    ensures state_after_2 { swept_in state.new ≡ swept_kept r k logged frames }
{
    let selection = kept_reader::select::selection_bytes(r);
    let link = kept_reader::link::link_bytes(k);
    let tail = crate::swept_tail(logged, frames);
    rows::within::put(state, 0, &selection);
    rows::within::put(state, 21, &link);
    rows::within::put(state, 45, &tail);
}

// Keeps what a sweep by value gave, s, in the reader's state and in the row of n cards' states, and gives the number for C. A sweep that was
// refused writes nothing.
pub fn settle(s: Swept, n: usize, state: &mut [u8], cards: &mut [u8]) -> usize
    requires { (state_size ≤ length state.old) × (state_size * n ≤ length cards.old) }
    ensures value { result ≡ swept_number s }
    ensures state_after { state.new ≡ state_left state.old s }
    ensures cards_after { cards.new ≡ row_left n cards.old s }
    ensures says { Says state.old n s state.new cards.new }
{
    if kept_reader::selection_refuses(s.answer) {
        return kept_reader::selection_number(s.answer);
    }
    let k = kept_reader::link::link_of(state);
    keep(s.reader, k, s.logged, s.frames, state);
    put_cards(s.cards, n, cards);
    s.found
}
