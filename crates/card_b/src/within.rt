// The card's rules. Called by our own crates only: firmware calls `take`.
// Each answer goes to the front of a row that is lent with room for the longest, 112 bits.
ghost use Rattle.std.specs.Prelude.{◌≡◌, not, ◌&&◌, ◌≤◌, length};
ghost use Rattle.rows.specs.Rows.{overlay};
ghost use Rattle.frame_b.specs.FrameB.{frame_b};
ghost use Rattle.frame_b.specs.LimitsB.{answer_room_b};
ghost use Rattle.selection_b.specs.TypeB.{done};
ghost use Rattle.selection_b.specs.TakenB.{is_request, slots_in};
ghost use Rattle.card_b.specs.declared.StateB.TheVariants.{Requested, Declared};
ghost use Rattle.card_b.specs.CardB.{atqb_of, drawn, heeds, requested, asked, other, rules};
ghost use Rattle.card_b.specs.CallsB.{taken, bits_in};

use crate::{CardB, StateB, TakenB};
use refusal::Refusal;
use selection_b::Request;

// The bits of an answer.
pub fn bits_in(a: Result<Option<usize>, Refusal>) -> usize
    ensures { result ≡ bits_in a }
{
    match a {
        Ok(Some(n)) => n,
        _ => 0,
    }
}

// Is a slot number 1 to n?
#[tactic(auto, using(std::proofs::lemmas::Bool::Decides::nat_tests), unfolding(crate::specs::CardB::drawn))]
pub fn is_drawn(number: u8, n: u8) -> bool
    ensures { result ≡ drawn number n }
{
    1 <= number && number <= n
}

// Is the row a request, and the number not 1 to its N?
pub fn is_undrawn(number: u8, row: &[u8]) -> bool
    ensures { result ≡ (is_request row.now && not (drawn number (slots_in row.now))) }
{
    match selection_b::taken::read_request(row) {
        Some(q) => !is_drawn(number, q.slots),
        None => false,
    }
}

// Does a state take a request?
// Kept: it is a bit of the frame that is sent or heard, or a field of the reader, as the definitions have it, and picks no step.
fn heeds(s: StateB, wake: bool) -> bool
    ensures { result ≡ heeds s wake }
{
    match s {
        StateB::Idle | StateB::Requested(_) | StateB::Declared => true,
        StateB::Halt => wake,
        _ => false,
    }
}

// ATQB, and Declared.
fn send_atqb(c: CardB, out: &mut [u8]) -> TakenB
    requires { answer_room_b ≤ length out.old }
    ensures value { result ≡ taken c (Declared, frame_b (atqb_of c)) }
    ensures out_after { out.new ≡ overlay out.old 0 (frame_b (atqb_of c)) }
{
    let row = selection_b::sent::atqb(c.pupi, c.application, c.protocol);
    crate::answer::send(c, StateB::Declared, &row, out)
}

// An admitted request.
#[tactic(auto, using(std::proofs::lemmas::Bool::Decides::nat_tests, rows::proofs::RowLaws::overlay_nil), unfolding(crate::specs::CardB::requested))]
fn take_requested(c: CardB, number: u8, out: &mut [u8]) -> TakenB
    requires { answer_room_b ≤ length out.old }
    ensures value { result ≡ taken c (requested c number) }
    ensures out_after { out.new ≡ overlay out.old 0 (requested c number).1 }
{
    if number == 1 {
        send_atqb(c, out)
    } else if c.markers {
        crate::answer::silent(c, StateB::Requested(number))
    } else {
        crate::answer::silent(c, StateB::Idle)
    }
}

// A request.
#[tactic(auto, using(std::proofs::lemmas::Bool::Decides::nat_tests, rows::proofs::RowLaws::overlay_nil), unfolding(crate::specs::CardB::asked))]
fn take_asked(c: CardB, number: u8, q: Request, out: &mut [u8]) -> TakenB
    requires { answer_room_b ≤ length out.old }
    ensures value { result ≡ taken c (asked c c.state number q.wake q.slots q.afi) }
    ensures out_after { out.new ≡ overlay out.old 0 (asked c c.state number q.wake q.slots q.afi).1 }
{
    if heeds(c.state, q.wake)
        && is_drawn(number, q.slots)
        && selection_b::taken::admits(q.afi, c.afi)
    {
        take_requested(c, number, out)
    } else {
        crate::answer::silent(c, c.state)
    }
}

// A frame that is no request, in Requested.
#[tactic(auto, using(std::proofs::lemmas::Bool::Decides::nat_tests, rows::proofs::RowLaws::overlay_nil), unfolding(crate::specs::CardB::other))]
fn take_marked(c: CardB, slot: u8, row: &[u8], out: &mut [u8]) -> TakenB
    requires { answer_room_b ≤ length out.old }
    ensures value { result ≡ taken c (other c (Requested slot) row.now) }
    ensures out_after { out.new ≡ overlay out.old 0 (other c (Requested slot) row.now).1 }
{
    if selection_b::taken::is_marker(slot, row) {
        send_atqb(c, out)
    } else {
        crate::answer::silent(c, StateB::Requested(slot))
    }
}

// .. in Declared.
#[tactic(auto, using(std::proofs::lemmas::Bool::Decides::nat_tests, rows::proofs::RowLaws::overlay_nil), unfolding(crate::specs::CardB::other))]
fn take_declared(c: CardB, row: &[u8], out: &mut [u8]) -> TakenB
    requires { answer_room_b ≤ length out.old }
    ensures value { result ≡ taken c (other c Declared row.now) }
    ensures out_after { out.new ≡ overlay out.old 0 (other c Declared row.now).1 }
{
    if selection_b::taken::is_attrib(c.pupi, row) {
        crate::answer::send(c, StateB::Active, &selection_b::sent::done(), out)
    } else if selection_b::taken::is_hltb(c.pupi, row) {
        crate::answer::send(c, StateB::Halt, &selection_b::sent::done(), out)
    } else {
        crate::answer::silent(c, StateB::Declared)
    }
}

// .. by the card's state.
#[tactic(auto, using(std::proofs::lemmas::Bool::Decides::nat_tests, rows::proofs::RowLaws::overlay_nil), unfolding(crate::specs::CardB::other))]
fn take_other(c: CardB, row: &[u8], out: &mut [u8]) -> TakenB
    requires { answer_room_b ≤ length out.old }
    ensures value { result ≡ taken c (other c c.state row.now) }
    ensures out_after { out.new ≡ overlay out.old 0 (other c c.state row.now).1 }
{
    match c.state {
        StateB::Requested(n) => take_marked(c, n, row, out),
        StateB::Declared => take_declared(c, row, out),
        s => crate::answer::silent(c, s),
    }
}

// A frame, by the card's rules.
pub fn take_rules(c: CardB, number: u8, row: &[u8], out: &mut [u8]) -> TakenB
    requires { answer_room_b ≤ length out.old }
    ensures value { result ≡ taken c (rules c c.state number row.now) }
    ensures out_after { out.new ≡ overlay out.old 0 (rules c c.state number row.now).1 }
{
    match selection_b::taken::read_request(row) {
        Some(q) => take_asked(c, number, q, out),
        None => take_other(c, row, out),
    }
}
