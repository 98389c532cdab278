// The card that is played, and its lines.
use crate::said::{Answer, State, Taken};
use bench_lines::{Refused, card_words, number_to, row_line, small_number};
use bench_talk::{LineError, Program};
use block::Told;
use card_link::{CardTurn, LinkCard, whole};
use limits::{MESSAGE_MAX, ROW_ROOM};
use std::alloc::{AllocError, Global};

// The bits of the longest row that a line gives: fewer than 8,192 bytes, and CRC_A.
const LONGEST_ROW: usize = 9 * 8194;

// The card, if there is one; the buffer for messages, and how much of it is lent; and the host's answer. A line holds fewer than 8,192 bytes: a host's
// answer that is too long for the core reaches it all the same.
// Kept: room is no length of the buffer: what was joined behind a smaller room is there again in a larger one, and programs print the same.
#[derive(Drop)]
pub struct Played {
    card: Option<LinkCard>,
    message: Vec<u8>,
    room: usize,
    answer: Vec<u8>,
}

impl Played {
    pub fn new(alloc: Global) -> Result<Self, AllocError> {
        Ok(Played {
            card: None,
            message: vec![in alloc; 0; MESSAGE_MAX]?,
            room: MESSAGE_MAX,
            answer: Vec::new(alloc),
        })
    }

    // `room N`, 0 to 4096
    fn room(&mut self, alloc: Global, size: &[u8]) -> Result<String, LineError> {
        self.room = number_to(size, MESSAGE_MAX)?;
        Ok(format!(in alloc; "room {}", self.room)?)
    }

    // What came of any other line. Before the first card only `card` is understood.
    fn came(&mut self, alloc: Global, words: &[&[u8]]) -> Result<String, LineError> {
        if let [b"card", uid, sak, index] = words {
            return self.place(alloc, uid, sak, index);
        }
        let card = self.card.ok_or(LineError::NotUnderstood)?;
        match words {
            [b"power", b"on"] => self.now(alloc, whole::power_on(card)),
            [b"power", b"off"] => self.now(alloc, whole::power_off(card)),
            [b"reply", answer] => self.reply(alloc, card, answer),
            [b"wtx", value] => self.ask(alloc, card, value),
            [name, value] => self.take(alloc, card, name, value),
            _ => Err(LineError::NotUnderstood),
        }
    }

    // `ok`, and the card is this one now.
    fn now(&mut self, alloc: Global, card: LinkCard) -> Result<String, LineError> {
        self.card = Some(card);
        Ok(format!(in alloc; "ok")?)
    }

    // `card UID SAK INDEX`: a new card, without power. One that is refused leaves the one before it.
    fn place(
        &mut self,
        alloc: Global,
        uid: &[u8],
        sak: &[u8],
        index: &[u8],
    ) -> Result<String, LineError> {
        let words = card_words(alloc, uid, sak, index)?;
        match whole::new_card(words.uid_bytes(), words.blocks, words.index) {
            Ok(card) => self.now(alloc, card),
            Err(refusal) => Ok(format!(in alloc; "{}", Refused(refusal))?),
        }
    }

    // `reply HEX`: the host's answer, kept until the next one. One that is refused is not kept: the one before it stays.
    fn reply(&mut self, alloc: Global, card: LinkCard, answer: &[u8]) -> Result<String, LineError> {
        let answer = bench_lines::bytes(alloc, answer, 8192)?;
        let mut sent = [0; ROW_ROOM];
        let turn = whole::reply(card, answer.as_slice(), &mut sent);
        if turn.bits > 0 {
            self.answer = answer;
        }
        self.called(alloc, turn, &sent)
    }

    // `wtx N`, 0 to 255
    fn ask(&mut self, alloc: Global, card: LinkCard, wtx: &[u8]) -> Result<String, LineError> {
        let wtx = small_number(wtx)?;
        let mut sent = [0; ROW_ROOM];
        let turn = whole::ask(card, wtx, &mut sent);
        self.called(alloc, turn, &sent)
    }

    // What comes of a host's call, which the card declines or answers: the bits that it sends stand at the front of `sent`.
    fn called(&mut self, alloc: Global, turn: CardTurn, sent: &[u8]) -> Result<String, LineError> {
        self.card = Some(turn.card);
        match turn.told {
            Told::Refused(refusal) => Ok(format!(in alloc; "{}", Refused(refusal))?),
            _ => Ok(format!(in alloc; "{}", Answer(bench::front(sent, turn.bits)))?),
        }
    }

    // The lines that hand the card a row.
    fn take(
        &mut self,
        alloc: Global,
        card: LinkCard,
        name: &[u8],
        value: &[u8],
    ) -> Result<String, LineError> {
        let row = row_line(alloc, name, value, LONGEST_ROW)?;
        let mut sent = [0; ROW_ROOM];
        let room = self.room.min(self.message.len());
        let turn = whole::take(
            card,
            row.as_slice(),
            self.answer.as_slice(),
            &mut self.message[..room],
            &mut sent,
        );
        self.card = Some(turn.card);
        let taken = Taken {
            told: turn.told,
            row: bench::front(&sent, turn.bits),
            message: self.message.as_slice(),
        };
        Ok(format!(in alloc; "{taken}")?)
    }
}

impl Program for Played {
    // `room N` is answered without a state; every other line with it.
    fn answer(&mut self, alloc: Global, words: &[&[u8]]) -> Result<String, LineError> {
        match words {
            [b"room", size] => self.room(alloc, size),
            _ => {
                let came = self.came(alloc, words)?;
                Ok(format!(in alloc; "{came} ; {}", State(self.card))?)
            }
        }
    }
}
