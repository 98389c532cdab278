// Functions that only crates of this repository call: each has a condition, and its callers' proofs show that they meet it.
ghost use Rattle.std.specs.Prelude.{◌≡◌, true, ◌≤◌, length};
ghost use Rattle.rows.specs.Rows.{overlay};
ghost use Rattle.kept.specs.Kept.{state_size, told_number, told_refuses};
ghost use Rattle.kept_card.specs.KeptWhole.{link_card_of, card_turn_bytes, card_turn_left, kept_card_in, kept_card_of, kept_card_after};

use card_link::CardTurn;

// Writes what comes of a call into lent bytes.
fn keep(t: CardTurn, state: &mut [u8])
    requires { state_size ≤ length state.old }
    ensures state_after { state.new ≡ overlay state.old 0 (card_turn_bytes t) }
    ensures state_after_2 { kept_card_in state.new ≡ kept_card_of t }
{
    let card = crate::card_bytes(t.card.card);
    let link = crate::link::link_bytes(t.card.link);
    let news = crate::whole::told_bytes(t.told);
    rows::within::put(state, 0, &card);
    rows::within::put(state, 20, &link);
    rows::within::put(state, 45, &news);
}

// Keeps what comes of a call on the card that lent bytes say, and gives the call's number. A call that is refused leaves the card what it was,
// and writes nothing. Else the bytes say the card then, and what else its host is told.
pub fn settle(t: CardTurn, state: &mut [u8]) -> usize
    requires { (state_size ≤ length state.old) × (told_refuses t.told ≡ true → t.card ≡ link_card_of state.old) }
    ensures value { result ≡ told_number t.bits t.told }
    ensures state_after { state.new ≡ card_turn_left state.old t }
    ensures state_after_2 { kept_card_in state.new ≡ kept_card_after state.old t }
{
    if !kept::told_refuses(t.told) {
        keep(t, state);
    }
    kept::told_number(t.bits, t.told)
}
