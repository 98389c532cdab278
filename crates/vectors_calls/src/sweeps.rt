// The calls over a field in which one thing may be off.
use crate::answers::{counted, lent};
use crate::readers;
use bench_talk::LineError;
use card::{Card, CardState};
use limits::{LIST_ROOM, LOG_ROOM, MOST_CARDS};
use reader::{Answer, Reader};
use std::alloc::Global;
use sweep::{Start, Swept};
use uid::{Level, Uid, UidSize};

// What is off: nothing; the first card's index is 9, its UID is not valid, is the second card's, it is in this state; the reader is not new.
#[derive(Clone, Copy)]
pub enum Off {
    Nothing,
    Index,
    Uid,
    Twice,
    State(CardState),
    Used,
}

impl TryFrom<&[u8]> for Off {
    type Error = LineError;

    fn try_from(word: &[u8]) -> Result<Self, LineError> {
        match word {
            b"none" => Ok(Off::Nothing),
            b"index" => Ok(Off::Index),
            b"uid" => Ok(Off::Uid),
            b"twice" => Ok(Off::Twice),
            b"ready" => Ok(Off::State(CardState::Ready(Level::One))),
            b"ready*" => Ok(Off::State(CardState::ReadyStar(Level::One))),
            b"active*" => Ok(Off::State(CardState::ActiveStar)),
            b"off" => Ok(Off::State(CardState::Off)),
            b"used" => Ok(Off::Used),
            _ => Err(LineError::NotUnderstood),
        }
    }
}

impl Off {
    fn reader(self) -> Reader {
        match self {
            Off::Used => readers::used(),
            _ => reader::new_reader(),
        }
    }

    // As many cards as a sweep takes, in Idle: card i has the UID i 2 3 4.
    fn cards(self) -> [Card; MOST_CARDS] {
        let mut cards = [card(0); MOST_CARDS];
        for (place, first) in cards.iter_mut().zip(0..=255) {
            *place = card(first);
        }
        cards[0] = self.first_card();
        cards
    }

    fn first_card(self) -> Card {
        let good = card(0);
        match self {
            Off::Nothing | Off::Used => good,
            Off::Index => Card { index: 9, ..good },
            Off::Uid => card(0x88),
            Off::Twice => card(1),
            Off::State(state) => Card { state, ..good },
        }
    }
}

fn card(first: u8) -> Card {
    Card {
        uid: Uid {
            size: UidSize::Single,
            bytes: [first, 2, 3, 4, 0, 0, 0, 0, 0, 0],
        },
        blocks: true,
        index: 8,
        state: CardState::Idle,
    }
}

// A sweep of so many of the cards, with so much room for the log and for the list.
pub fn swept<S: Fn(Start, [Card; MOST_CARDS], usize, &mut [u8], &mut [u8]) -> Swept>(
    alloc: Global,
    log: usize,
    list: usize,
    count: usize,
    off: Off,
    sweep: S,
) -> Result<String, LineError>
    requires { S.IsAlwaysCallable sweep }
{
    let mut log = lent(alloc, 0, log, LOG_ROOM)?;
    let mut list = lent(alloc, 0, list, LIST_ROOM)?;
    let start = Start {
        reader: off.reader(),
        tick: 0,
    };
    let swept = sweep(
        start,
        off.cards(),
        count,
        log.as_mut_slice(),
        list.as_mut_slice(),
    );
    frames(alloc, swept.answer, swept.frames)
}

// One of so many of the cards is woken, the one with this UID.
pub fn woken(alloc: Global, uid: &[u8], count: usize, off: Off) -> Result<String, LineError> {
    let woken = wake::wake(off.reader(), uid, off.cards(), count);
    frames(alloc, woken.answer, woken.frames)
}

// `frames N`, or `refused N`
fn frames(alloc: Global, answer: Answer, count: usize) -> Result<String, LineError> {
    let frames = match answer {
        Answer::Declines(refusal) => Err(refusal),
        _ => Ok(count),
    };
    counted(alloc, "frames", frames)
}
