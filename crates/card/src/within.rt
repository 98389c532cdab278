// The card's rules, state by state. Called by our own crates only: firmware calls card_link's `take`.
// Each answer goes to the front of a row that is lent with room for the longest, 45 bits.
ghost use Rattle.std.specs.Prelude.{◌≡◌, ◌≤◌, length};
ghost use Rattle.rows.specs.Rows.{overlay};
ghost use Rattle.selection.specs.Selection.{atqa};
ghost use Rattle.uid.specs.declared.Level.TheVariants.{One};
ghost use Rattle.card.specs.declared.CardState.TheVariants.{Idle, Halt};
ghost use Rattle.card.specs.Card.{ready_in, active_in, rules};
ghost use Rattle.card.specs.Calls.{taken, bits_in};

use crate::{Card, CardState, Taken, answer, rats, ready, woken};
use uid::Level;

// ATQA, and Ready at level 1, or Ready* for a card that is woken from Halt.
fn send_atqa(c: Card, woken: bool, out: &mut [u8]) -> Taken
    requires { 45 ≤ length out.old }
    ensures value { result ≡ taken c (ready_in woken One, atqa c.uid.size) }
    ensures out_after { out.new ≡ overlay out.old 0 (atqa c.uid.size) }
{
    answer::send(
        c,
        woken::ready_in(woken, Level::One),
        &selection::sent::atqa(c.uid.size),
        out,
    )
}

fn take_idle(c: Card, row: &[u8], out: &mut [u8]) -> Taken
    requires { 45 ≤ length out.old }
    ensures value { result ≡ taken c (rules c Idle row.now) }
    ensures out_after { out.new ≡ overlay out.old 0 (rules c Idle row.now).1 }
{
    if rows::is_same(row, &selection::sent::reqa())
        || rows::is_same(row, &selection::sent::wupa())
    {
        return send_atqa(c, false, out);
    }
    answer::silent(c, CardState::Idle)
}

fn take_halt(c: Card, row: &[u8], out: &mut [u8]) -> Taken
    requires { 45 ≤ length out.old }
    ensures value { result ≡ taken c (rules c Halt row.now) }
    ensures out_after { out.new ≡ overlay out.old 0 (rules c Halt row.now).1 }
{
    if rows::is_same(row, &selection::sent::wupa()) {
        return send_atqa(c, true, out);
    }
    answer::silent(c, CardState::Halt)
}

// A card in Active, or woken in Active*.
fn take_active(c: Card, woken: bool, row: &[u8], out: &mut [u8]) -> Taken
    requires { 45 ≤ length out.old }
    ensures value { result ≡ taken c (rules c (active_in woken) row.now) }
    ensures out_after { out.new ≡ overlay out.old 0 (rules c (active_in woken) row.now).1 }
{
    if rows::is_same(row, &selection::sent::hlta()) {
        return answer::silent(c, CardState::Halt);
    }
    if c.blocks && rats::is_rats(row) {
        let theirs = selection::numbers::at_most_8(rats::fsdi(row) as u8);
        let ours = selection::numbers::at_most_8(c.index);
        return answer::send(
            c,
            CardState::Protocol(theirs),
            &selection::within::ats(ours),
            out,
        );
    }
    answer::silent(c, woken::home(woken))
}

// A frame, by the card's state.
pub fn take_rules(c: Card, row: &[u8], out: &mut [u8]) -> Taken
    requires { 45 ≤ length out.old }
    ensures value { result ≡ taken c (rules c c.state row.now) }
    ensures out_after { out.new ≡ overlay out.old 0 (rules c c.state row.now).1 }
{
    match c.state {
        CardState::Off | CardState::Protocol(_) => answer::silent(c, c.state),
        CardState::Idle => take_idle(c, row, out),
        CardState::Ready(l) => ready::take_ready(c, false, l, row, out),
        CardState::Active => take_active(c, false, row, out),
        CardState::Halt => take_halt(c, row, out),
        CardState::ReadyStar(l) => ready::take_ready(c, true, l, row, out),
        CardState::ActiveStar => take_active(c, true, row, out),
    }
}

// How many air bits an answer has.
pub fn bits_in(a: Option<usize>) -> usize
    ensures { result ≡ bits_in a }
{
    a.unwrap_or(0)
}
