// T-12, the trace checker: what a check of a log is, over the rules of the reader and of the sweep. This crate has types, definitions and
// proofs; the code stands in crate trace.
#![tactic(auto)]

use card::Card;
use limits::MOST_CARDS;
use reader::Reader;
use refusal::Refusal;

// The record at fault, counted from 0, reader's records and heard ones together, and the refusal.
#[derive(Clone, Copy)]
pub struct Fault {
    pub index: usize,
    pub refusal: Refusal,
}

// What the check says of a log. Ok: it is the one that the plain sweep writes over the cards found, ticks apart.
pub type Verdict = Result<(), Fault>;

// A checked log: the cards that were found in it, up to the fault if there is one, as many as found says, in the order found, each idle, and
// speaking blocks where its last SAK was 20.
// Kept: no heap: a field is an array of 32 and a count in firmware's calls (docs/PROMISES.md: sweep, wake, inquire), and the definitions say `take
// n cards`.
#[derive(Clone, Copy)]
pub struct Checked {
    pub verdict: Verdict,
    pub cards: [Card; MOST_CARDS],
    pub found: usize,
}

// Where a check is: a reader's record is due at a place of the log, the reader has sent its frame, and so many cards were found.
// Kept: no heap: a field is an array of 32 and a count in firmware's calls (docs/PROMISES.md: sweep, wake, inquire), and the definitions say `take
// n cards`.
#[derive(Clone, Copy)]
pub struct Place {
    pub at: usize,
    pub reader: Reader,
    pub cards: [Card; MOST_CARDS],
    pub found: usize,
}

// After two records: the check goes on, the reader is content and the log at its end, or a record is at fault, so many records on.
#[derive(Clone, Copy)]
pub enum Says {
    Goes,
    Content,
    Faults { on: u8, refusal: Refusal },
}

#[derive(Clone, Copy)]
pub struct Stepped {
    pub place: Place,
    pub says: Says,
}

// Two records of the sweep over the listed cards are held to those of the log, and the first of the two is not there, or the second.
#[derive(Clone, Copy)]
pub enum Differs {
    First,
    Second,
}
