// Functions that only crates of this repository call: each has a condition, and its callers' proofs show that they meet it.
ghost use Rattle.std.specs.Prelude.{◌≡◌, ◌≤◌, length};
ghost use Rattle.rows.specs.Rows.{overlay};
ghost use Rattle.kept.specs.Kept.{state_size};
ghost use Rattle.kept_reader.specs.KeptReader.{turn_bytes, turn_left, reader_of, kept_in, kept_of, kept_after, answer_number};

use reader_link::{LinkReader, LinkTurn};

// Writes what comes of a call into lent bytes.
fn keep(t: LinkTurn, state: &mut [u8])
    requires { state_size ≤ length state.old }
    ensures state_after { state.new ≡ overlay state.old 0 (turn_bytes t) }
    ensures state_after_2 { kept_in state.new ≡ kept_of t }
{
    let selection = crate::select::selection_bytes(t.reader.reader);
    let link = crate::link::link_bytes(t.reader.link);
    let answer = crate::answer_bytes(t.answer);
    rows::within::put(state, 0, &selection);
    rows::within::put(state, 21, &link);
    rows::within::put(state, 45, &answer);
}

// Keeps what comes of a call on the reader x, which lent bytes say, and gives the call's number. A call that is refused and leaves x what it
// was writes nothing. Else the bytes say the reader then, and what else was answered.
pub fn settle(x: LinkReader, t: LinkTurn, state: &mut [u8]) -> usize
    requires { (state_size ≤ length state.old) × (x ≡ reader_of state.old) }
    ensures value { result ≡ answer_number t.answer }
    ensures state_after { state.new ≡ turn_left state.old t }
    ensures state_after_2 { kept_in state.new ≡ kept_after state.old t }
{
    if !crate::stays(x, t) {
        keep(t, state);
    }
    crate::answer_number(t.answer)
}
