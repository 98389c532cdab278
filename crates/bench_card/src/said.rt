// What came of a line, and the card's state, as they are printed.
use bench_lines::Refused;
use bench_text::{Hex, Row};
use block::Told;
use card::CardState;
use card_link::LinkCard;
use refusal::Refusal;
use std::fmt;
use uid::Level;

// What comes of a frame: the row that the card sends, and what its host is told; a whole message stands at the front of `message`.
#[derive(Clone, Copy)]
pub struct Taken<'a> {
    pub told: Told,
    pub row: &'a [u8],
    pub message: &'a [u8],
}

impl fmt::Display for Taken<'_> {
    fn fmt<W: fmt::Write>(&self, f: &mut fmt::Formatter<W>) -> fmt::Result {
        match self.told {
            Told::Quiet | Told::Deselected => write!(f, "{}", Answer(self.row)),
            Told::Message(n) => write!(f, "delivered {}", Hex(bench::front(self.message, n))),
            Told::Granted => f.write_str("again"),
            // an I that does not fit is silence on the air, and only its host knows
            Told::Refused(Refusal::TooLong) => f.write_str("told 10"),
            Told::Refused(refusal) => write!(f, "{}", Refused(refusal)),
        }
    }
}

// `answer ROW`, or `silent` where it is empty.
#[derive(Clone, Copy)]
pub struct Answer<'a>(pub &'a [u8]);

impl fmt::Display for Answer<'_> {
    fn fmt<W: fmt::Write>(&self, f: &mut fmt::Formatter<W>) -> fmt::Result {
        if self.0.is_empty() {
            f.write_str("silent")
        } else {
            write!(f, "answer {}", Row(self.0))
        }
    }
}

// The state of the card, or `none`.
#[derive(Clone, Copy)]
pub struct State(pub Option<LinkCard>);

impl fmt::Display for State {
    fn fmt<W: fmt::Write>(&self, f: &mut fmt::Formatter<W>) -> fmt::Result {
        let Some(card) = self.0 else {
            return f.write_str("none");
        };
        match card.card.state {
            CardState::Off => f.write_str("off"),
            CardState::Idle => f.write_str("idle"),
            CardState::Ready(level) => write!(f, "ready {}", number(level)),
            CardState::Active => f.write_str("active"),
            CardState::Halt => f.write_str("halt"),
            CardState::ReadyStar(level) => write!(f, "ready* {}", number(level)),
            CardState::ActiveStar => f.write_str("active*"),
            CardState::Protocol(_) => f.write_str("protocol"),
        }
    }
}

// 1, 2 or 3.
fn number(level: Level) -> usize {
    selection::numbers::place(level) + 1
}
