// A field of cards from text, its sweep or one card of it woken, and what came of it as lines: BENCH.md's `UID [STATE [SAK [INDEX]]]` and `wake UID`,
// and the answers.
#![tactic(auto)]

mod cards;
mod outcome;
mod swept;
mod woken;

use bench_lines::{number_to, tick_word, uid_word};
use bench_talk::{LineError, Program};
use card::Card;
use limits::MOST_CARDS;
pub use outcome::Outcome;
use refusal::Refusal;
use std::alloc::{AllocError, Global};

// The field that the lines so far make, and how it is swept.
#[derive(Drop)]
pub struct Field {
    // In the order given. The calls decline whatever has more cards than the limit, so one of those above it is enough.
    cards: Vec<Card>,
    // Why a card was not to be made.
    refusal: Option<Refusal>,
    // How many bytes of log and list are lent to the sweep.
    log: usize,
    list: usize,
    // The tick of the log's first record.
    tick: u32,
    // Is it the sweep that remembers (T-14)?
    remembers: bool,
    // The UID to wake in place of a sweep.
    wakes: Option<Vec<u8>>,
}

// How the cards are handed over: as values, or as a row that is lent and changed in place. The answer is the same.
#[derive(Clone, Copy)]
pub enum Way {
    Values,
    Row,
}

// The most bytes of a log or a list that a line can ask to be lent.
const MOST_ROOM: usize = 65535;

impl Field {
    // No cards.
    pub fn new(alloc: Global) -> Self {
        Field {
            cards: Vec::new(alloc),
            refusal: None,
            log: limits::LOG_ROOM,
            list: limits::LIST_ROOM,
            tick: 0,
            remembers: false,
            wakes: None,
        }
    }

    // Sweeps the cards, or wakes one of them, on a new reader. The field itself stays as it is.
    pub fn play(&self, alloc: Global, way: Way) -> Result<Outcome, AllocError> {
        if let Some(refusal) = self.refusal {
            return Ok(Outcome::Refused(refusal));
        }
        match &self.wakes {
            Some(uid) => woken::wake(alloc, self, uid.as_slice()),
            None => swept::sweep(alloc, self, way),
        }
    }

    // The cards at the front of as many places as a sweep takes.
    fn places(&self) -> [Card; MOST_CARDS] {
        let mut places = [cards::BLANK; MOST_CARDS];
        for (place, card) in places.iter_mut().zip(self.cards.iter()) {
            *place = *card;
        }
        places
    }

    // `room LOG LIST`
    fn room(&mut self, log: &[u8], list: &[u8]) -> Result<(), LineError> {
        let log = number_to(log, MOST_ROOM)?;
        let list = number_to(list, MOST_ROOM)?;
        self.log = log;
        self.list = list;
        Ok(())
    }

    // `UID [STATE [SAK [INDEX]]]`
    fn card(&mut self, alloc: Global, words: &[&[u8]]) -> Result<(), LineError> {
        match cards::card_line(alloc, words)? {
            Ok(card) if self.cards.len() <= MOST_CARDS => {
                self.cards.push(card).map_err(AllocError::from)?;
            }
            Ok(_) => {}
            Err(refusal) => self.refusal = Some(refusal),
        }
        Ok(())
    }
}

// A line is a card, or says how the field is swept: of each kind of the latter the last one counts. One that is understood is answered by nothing.
impl Program for Field {
    fn answer(&mut self, alloc: Global, words: &[&[u8]]) -> Result<String, LineError> {
        match words {
            [b"room", log, list] => self.room(log, list)?,
            [b"tick", tick] => self.tick = tick_word(tick)?,
            [b"remember"] => self.remembers = true,
            [b"wake", uid] => self.wakes = Some(uid_word(alloc, uid)?),
            _ => self.card(alloc, words)?,
        }
        Ok(String::new(alloc))
    }
}
