// A step of the rules handed back: the card in its next state, and the row that it sends at the front of the lent one.
ghost use Rattle.std.specs.Prelude.{◌≡◌, [], ◌≤◌, length};
ghost use Rattle.rows.specs.Rows.{overlay};
ghost use Rattle.card.specs.Card.{with_state};
ghost use Rattle.card.specs.Calls.{taken};

use crate::{Card, CardState, Taken};

pub fn with_state(c: Card, s: CardState) -> Card
    ensures { result ≡ with_state c s }
{
    Card { state: s, ..c }
}

// The card goes to a state and is silent.
pub fn silent(c: Card, s: CardState) -> Taken
    ensures { result ≡ taken c (s, []) }
{
    Taken {
        card: with_state(c, s),
        answer: None,
    }
}

// The card goes to a state and sends a row; an empty one is silence.
pub fn send(c: Card, s: CardState, row: &[u8], out: &mut [u8]) -> Taken
    requires { length row.now ≤ length out.old }
    ensures value { result ≡ taken c (s, row.now) }
    ensures out_after { out.new ≡ overlay out.old 0 row.now }
{
    rows::within::put(out, 0, row);
    if row.is_empty() {
        return silent(c, s);
    }
    Taken {
        card: with_state(c, s),
        answer: Some(row.len()),
    }
}
