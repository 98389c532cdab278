// A card of the field, from its line and as a line.
use bench_talk::LineError;
use bench_text::Hex;
use card::{Card, CardState};
use refusal::Refusal;
use std::alloc::Global;
use std::fmt;
use uid::{Level, Uid, UidSize};

// What stands in a place without a card.
pub const BLANK: Card = Card {
    uid: Uid {
        size: UidSize::Single,
        bytes: [0; 10],
    },
    blocks: false,
    index: 0,
    state: CardState::Off,
};

// `card UID STATE SAK INDEX`
#[derive(Clone, Copy)]
pub struct CardLine<'a>(pub &'a Card);

// A state by its name; `ready` and `ready*` have the level behind them.
#[derive(Clone, Copy)]
struct State(CardState);

impl fmt::Display for CardLine<'_> {
    fn fmt<W: fmt::Write>(&self, f: &mut fmt::Formatter<W>) -> fmt::Result {
        let Card {
            uid,
            blocks,
            index,
            state,
        } = self.0;
        let uid = Hex(bench::front(&uid.bytes, uid::byte_count(uid.size)));
        let sak = if *blocks { "20" } else { "00" };
        write!(f, "card {uid} {} {sak} {index}", State(*state))
    }
}

impl fmt::Display for State {
    fn fmt<W: fmt::Write>(&self, f: &mut fmt::Formatter<W>) -> fmt::Result {
        match self.0 {
            CardState::Off => f.write_str("off"),
            CardState::Idle => f.write_str("idle"),
            CardState::Ready(level) => write!(f, "ready {}", number(level)),
            CardState::Active => f.write_str("active"),
            CardState::Halt => f.write_str("halt"),
            CardState::ReadyStar(level) => write!(f, "ready* {}", number(level)),
            CardState::ActiveStar => f.write_str("active*"),
            CardState::Protocol(_) => f.write_str("protocol"),
        }
    }
}

// A card from the words of its line, or why it is not to be made. What is left out is `idle`, `20` and `8`.
pub fn card_line(alloc: Global, words: &[&[u8]]) -> Result<Result<Card, Refusal>, LineError> {
    let [uid, behind @ ..] = words else {
        return Err(LineError::NotUnderstood);
    };
    let (state, behind) = state_words(behind)?;
    let words = match behind {
        [] => bench_lines::card_words(alloc, uid, b"20", b"8")?,
        [sak] => bench_lines::card_words(alloc, uid, sak, b"8")?,
        [sak, index] => bench_lines::card_words(alloc, uid, sak, index)?,
        _ => return Err(LineError::NotUnderstood),
    };
    let card = card::new_card(words.uid_bytes(), words.blocks, words.index);
    Ok(card.map(|card| Card { state, ..card }))
}

// The state at the front of the words, and what stands behind it.
fn state_words<'a>(words: &'a [&'a [u8]]) -> Result<(CardState, &'a [&'a [u8]]), LineError> {
    match words {
        [] => Ok((CardState::Idle, words)),
        [b"idle", behind @ ..] => Ok((CardState::Idle, behind)),
        [b"halt", behind @ ..] => Ok((CardState::Halt, behind)),
        [b"off", behind @ ..] => Ok((CardState::Off, behind)),
        [b"active", behind @ ..] => Ok((CardState::Active, behind)),
        [b"active*", behind @ ..] => Ok((CardState::ActiveStar, behind)),
        [b"protocol", behind @ ..] => Ok((CardState::Protocol(8), behind)),
        [b"ready", level, behind @ ..] => Ok((CardState::Ready(level_word(level)?), behind)),
        [b"ready*", level, behind @ ..] => Ok((CardState::ReadyStar(level_word(level)?), behind)),
        _ => Err(LineError::NotUnderstood),
    }
}

fn level_word(word: &[u8]) -> Result<Level, LineError> {
    match word {
        b"1" => Ok(Level::One),
        b"2" => Ok(Level::Two),
        b"3" => Ok(Level::Three),
        _ => Err(LineError::NotUnderstood),
    }
}

fn number(level: Level) -> usize {
    selection::numbers::place(level) + 1
}
