// The two ends, and the lines by which they speak to each other.
use crate::answers::Exchanged;
use crate::given::{Given, Losses};
use bench_lines::Refused;
use bench_talk::{LineError, Program};
use card_link::LinkCard;
use exchange::Outcome;
use reader_link::LinkReader;
use std::alloc::Global;

// The ends, once there are any.
#[derive(Drop)]
pub struct Channel {
    pub ends: Option<Ends>,
}

// A reader and a card that have opened, and what the card's host answered last: nothing after ATS.
#[derive(Drop)]
pub struct Ends {
    reader: LinkReader,
    card: LinkCard,
    before: Vec<u8>,
}

impl Channel {
    // `ends UID I J`: the reader has size index I, the card J and SAK 20. Ends that are refused leave those that were there.
    fn new_ends(
        &mut self,
        alloc: Global,
        uid: &[u8],
        own: &[u8],
        index: &[u8],
    ) -> Result<String, LineError> {
        let own = bench_lines::small_number(own)?;
        let words = bench_lines::card_words(alloc, uid, b"20", index)?;
        match card_link::whole::new_card(words.uid_bytes(), words.blocks, words.index) {
            Ok(card) => self.open(alloc, card, own),
            Err(refusal) => Ok(format!(in alloc; "{}", Refused(refusal))?),
        }
    }

    // The card is powered, and a new reader with this size index opens it.
    fn open(&mut self, alloc: Global, card: LinkCard, own: u8) -> Result<String, LineError> {
        let ends = bench_ends::opened(card_link::whole::power_on(card), own);
        let Some(size) = bench_ends::size_in(ends.answer) else {
            let n = bench_ends::refusal_in(ends.answer).map_or(0, refusal::number);
            return Ok(format!(in alloc; "refused {n}")?);
        };
        self.ends = Some(Ends {
            reader: ends.reader,
            card: ends.card,
            before: Vec::new(alloc),
        });
        Ok(format!(in alloc; "open {size}")?)
    }

    // `exchange MLEN MSEED ALEN ASEED ROUNDS DOWN UP`
    fn exchange(&mut self, alloc: Global, words: &[&[u8]]) -> Result<String, LineError> {
        let ends = self.ends.as_mut().ok_or(LineError::NotUnderstood)?;
        let mut given = Given::read(alloc, words)?;
        let outcome = exchange::exchange(
            ends.reader,
            ends.card,
            given.message.as_slice(),
            ends.before.as_slice(),
            given.answer.as_slice(),
            given.rounds,
            given.down.as_mut_slice(),
            given.up.as_mut_slice(),
        );
        ends.after(alloc, given, outcome)
    }

    // `lossy MLEN MSEED ALEN ASEED ROUNDS DOWN UP DOWNS HOSTS UPS NOISE`, T-11
    fn lossy(
        &mut self,
        alloc: Global,
        words: &[&[u8]],
        losses: Losses,
    ) -> Result<String, LineError> {
        let ends = self.ends.as_mut().ok_or(LineError::NotUnderstood)?;
        let mut given = Given::read(alloc, words)?;
        let outcome = lost_blocks::exchange(
            ends.reader,
            ends.card,
            given.message.as_slice(),
            ends.before.as_slice(),
            given.answer.as_slice(),
            losses.downs.as_slice(),
            losses.hosts.as_slice(),
            losses.ups.as_slice(),
            losses.noise.as_slice(),
            given.rounds,
            given.down.as_mut_slice(),
            given.up.as_mut_slice(),
        );
        ends.after(alloc, given, outcome)
    }
}

impl Ends {
    // The ends go on with the next line; an answer that the card's host gave is its last.
    fn after(
        &mut self,
        alloc: Global,
        given: Given,
        outcome: Outcome,
    ) -> Result<String, LineError> {
        let down = given.down.as_slice();
        let up = given.up.as_slice();
        let said = format!(in alloc; "{}", Exchanged { outcome, down, up })?;
        self.reader = outcome.reader;
        self.card = outcome.card;
        if outcome.answered {
            self.before = given.answer;
        }
        Ok(said)
    }
}

impl Program for Channel {
    fn answer(&mut self, alloc: Global, words: &[&[u8]]) -> Result<String, LineError> {
        match words {
            [b"ends", uid, own, index] => self.new_ends(alloc, uid, own, index),
            [b"exchange", given @ ..] => self.exchange(alloc, given),
            [b"lossy", given @ .., downs, hosts, ups, noise] => {
                let losses = Losses::read(alloc, downs, hosts, ups, noise)?;
                self.lossy(alloc, given, losses)
            }
            _ => Err(LineError::NotUnderstood),
        }
    }
}
