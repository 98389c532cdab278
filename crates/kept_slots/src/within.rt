// Functions that only crates of this repository call: each has a condition, and its callers' proofs show that they meet it.
ghost use Rattle.std.specs.Prelude.{◌≡◌, map, ◌*◌, ◌≤◌, length, take};
ghost use Rattle.limits.specs.Limits.{most_cards};
ghost use Rattle.kept.specs.Kept.{state_size};
ghost use Rattle.kept_b.specs.KeptReaderB.{reader_in, turn_left, kept_in, kept_after};
ghost use Rattle.kept_slots.specs.KeptSlots.{field_in, cards_in, cards_left, card_of, inquired_turn, inquired_number, row_left, Says};

use field_b::Drawn;
use limits::MOST_CARDS;
use reader_b::ReaderB;
use slots::Inquired;

// The cards of a row of states, one for each slot number, as the array that a request takes: as many as it holds, then cards of zeros.
pub fn cards_of(numbers: &[u8], b: &[u8]) -> [Drawn; MOST_CARDS]
    requires { state_size * length numbers.now ≤ length b.now }
    ensures { result ≡ field_in numbers.now b.now }
{
    kept::states::read(numbers.len(), crate::drawn_of(0, &[]), b, |i, state| {
        crate::drawn_of(kept::at(numbers, i), state)
    })
}

// Writes the first n cards of an array, as many as it has, back into a row of states: of each state its first 15 bytes.
pub fn put_cards(cards: [Drawn; MOST_CARDS], n: usize, b: &mut [u8])
    requires { state_size * n ≤ length b.old }
    ensures b_after { b.new ≡ cards_left b.old (take n cards) }
    ensures b_after_2 { cards_in (length (take n cards)) b.new ≡ map card_of (take n cards) }
    ensures cards_len { length cards ≡ most_cards }
{
    // Kept: tried as one function with kept_field (`kept_field::within::put_cards` says why not).
    for i in 0..kept::few(n) {
        rows::within::put(
            b,
            kept::STATE_SIZE * i,
            &kept_b::card::card_bytes(cards[i].card),
        );
    }
}

// Keeps what a request by value gave, s with its list, in the state that says the reader x and in the row of n cards' states, and gives the number
// for C. A request that is refused and leaves x what it was writes nothing.
pub fn settle(
    x: ReaderB,
    s: Inquired,
    n: usize,
    list: &[u8],
    state: &mut [u8],
    cards: &mut [u8],
) -> usize
    requires { (state_size ≤ length state.old) × (x ≡ reader_in state.old) × (state_size * n ≤ length cards.old) }
    ensures value { result ≡ inquired_number s.answer s.slots }
    ensures state_after { state.new ≡ turn_left state.old (inquired_turn s.reader s.answer s.slots list.now) }
    ensures state_after_2 { kept_in state.new ≡ kept_after state.old (inquired_turn s.reader s.answer s.slots list.now) }
    ensures cards_after { cards.new ≡ row_left x n cards.old s list.now }
    ensures says { Says x n s list.now cards.new }
{
    let t = crate::inquired_turn(s.reader, s.answer, s.slots, list);
    kept_b::within::settle(x, t, state);
    if !kept_b::stays(x, t) {
        put_cards(s.cards, n, cards);
    }
    crate::inquired_number(s.answer, s.slots)
}
