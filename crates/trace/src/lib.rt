// T-12, the trace checker: a log is read record by record against the reader's own rules, and then held to the plain sweep over the cards
// that it lists.
#![tactic(auto)]

mod reading;
mod replay;
mod walk;

ghost use Rattle.std.specs.Prelude.{◌≡◌, ◌≤◌, length, Ok};
ghost use Rattle.limits.specs.Limits.{most_cards, log_room};
ghost use Rattle.trace_rules.specs.Check.{check, refused, check_log, judged, checked_says, check_says};
ghost use Rattle.trace_rules.specs.Promise.{Faithful};

use refusal::Refusal;
pub use trace_rules::{Checked, Fault, Verdict};

// Refused before a record is read.
fn refused(e: Refusal) -> Checked
    ensures { result ≡ refused e }
{
    walk::checked(walk::fault(0, e), walk::start())
}

// The tests of the input, and then of the log.
fn check_input(input: &[u8]) -> Checked
    ensures { result ≡ check input.now }
{
    if input.len() > limits::LOG_ROOM + 1 {
        return refused(Refusal::Room);
    }
    if input.is_empty() {
        return refused(Refusal::Argument);
    }
    let mode = input[0];
    if mode > 1 {
        return refused(Refusal::Argument);
    }
    check_log(&input[1..], 4 * (mode as usize))
}

// Checks all of an input: a first byte, 0 for a log without ticks, 1 for one with, and the log. Whatever the input is, the answer is the one of the
// definition.
pub fn check(input: &[u8]) -> Checked
    ensures value { result ≡ check input.now }
    ensures result_value { checked_says result ≡ check_says input.now }
    ensures faithful { Faithful input.now result }
{
    check_input(input)
}

// Checks a log whose records have stamps of so many bytes.
fn check_log(log: &[u8], stamp: usize) -> Checked
    requires { length log.now ≤ log_room }
    ensures { result ≡ check_log stamp log.now }
{
    let c = walk::walk(log, stamp);
    match c.verdict {
        Ok(()) => judged(log, stamp, c),
        Err(_) => c,
    }
}

// The reader is content throughout: what the plain sweep over the listed cards says.
fn judged(log: &[u8], stamp: usize, c: Checked) -> Checked
    requires { c.found ≤ most_cards }
    ensures { result ≡ judged stamp log.now c (Ok tt) }
{
    Checked {
        verdict: replay::replay(log, stamp, c.cards, c.found),
        ..c
    }
}
