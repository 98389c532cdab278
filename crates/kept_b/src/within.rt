// Functions that only crates of this repository call: each has a condition, and its callers' proofs show that they meet it.
ghost use Rattle.std.specs.Prelude.{◌≡◌, true, ◌≤◌, length};
ghost use Rattle.rows.specs.Rows.{overlay};
ghost use Rattle.kept.specs.Kept.{state_size};
ghost use Rattle.kept_b.specs.KeptReaderB.{reader_in, turn_bytes, turn_left, kept_in, kept_of, kept_after, answer_number};
ghost use Rattle.kept_b.specs.KeptCardB.{card_in, card_bytes, taken_number, taken_refuses, taken_left};

use card_b::{CardB, TakenB};
use reader_b::{ReaderB, TurnB};

// Writes what comes of a reader's call into lent bytes.
fn keep(t: TurnB, state: &mut [u8])
    requires { state_size ≤ length state.old }
    ensures state_after { state.new ≡ overlay state.old 0 (turn_bytes t) }
    ensures state_after_2 { kept_in state.new ≡ kept_of t }
{
    let front = crate::front_bytes(t);
    let answer = crate::answer_bytes(t.answer);
    rows::within::put(state, 0, &front);
    rows::within::put(state, 16, &[0; 29]);
    rows::within::put(state, 45, &answer);
}

// Keeps what comes of a call on the reader x, which lent bytes say, and gives the call's number. A call that is refused and leaves x what it
// was writes nothing. Else the bytes say the reader then, and what else was answered.
pub fn settle(x: ReaderB, t: TurnB, state: &mut [u8]) -> usize
    requires { (state_size ≤ length state.old) × (x ≡ reader_in state.old) }
    ensures value { result ≡ answer_number t.answer }
    ensures state_after { state.new ≡ turn_left state.old t }
    ensures state_after_2 { kept_in state.new ≡ kept_after state.old t }
{
    if !crate::stays(x, t) {
        keep(t, state);
    }
    crate::answer_number(t.answer)
}

// Writes a card into lent bytes.
fn keep_card(c: CardB, state: &mut [u8])
    requires { state_size ≤ length state.old }
    ensures state_after { state.new ≡ overlay state.old 0 (card_bytes c) }
    ensures state_after_2 { card_in state.new ≡ c }
{
    let card = crate::card::card_bytes(c);
    rows::within::put(state, 0, &card);
}

// Keeps what comes of a call on the card that lent bytes say, and gives the call's number. A call that is refused leaves the card what it was,
// and writes nothing.
pub fn settle_card(t: TakenB, state: &mut [u8]) -> usize
    requires { (state_size ≤ length state.old) × (taken_refuses t.answer ≡ true → t.card ≡ card_in state.old) }
    ensures value { result ≡ taken_number t.answer }
    ensures state_after { state.new ≡ taken_left state.old t }
    ensures state_after_2 { card_in state.new ≡ t.card }
{
    if !crate::card::taken_refuses(t.answer) {
        keep_card(t.card, state);
    }
    crate::card::taken_number(t.answer)
}
