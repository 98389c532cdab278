// The field, the reader and the list that are played, and their lines.
use crate::answers::{Cards, Octets, Slot, Slots, State};
use crate::{cards, frames, words};
use bench_lines::{Refused, number_to, small_number};
use bench_talk::{LineError, Program};
use bench_text::Hex;
use field_b::Drawn;
use reader_b::{AnswerB, ReaderB, TurnB};
use std::alloc::{AllocError, Global};

// More than the core's limit, so that a field over it reaches the core.
const MOST_PLAYED: usize = 40;

const UNWRITTEN: u8 = 0xFF;

// The cards, in the order put in; the reader, and the frame that it sent last; the list that is lent.
#[derive(Drop)]
pub struct Played {
    field: Vec<Drawn>,
    reader: ReaderB,
    frame: Vec<u8>,
    list: Vec<u8>,
}

impl Played {
    // No card, a new reader, and a list as long as the request asks for.
    pub fn new(alloc: Global) -> Result<Self, AllocError> {
        Ok(Played {
            field: Vec::new(alloc),
            reader: reader_b::new_reader(),
            frame: Vec::new(alloc),
            list: vec![in alloc; UNWRITTEN; frame_b::LIST_ROOM]?,
        })
    }

    // `card PUPI [STATE [AFI [MARKERS [DATA [INFO]]]]]`
    fn card(&mut self, alloc: Global, pupi: &[u8], others: &[&[u8]]) -> Result<String, LineError> {
        if self.field.len() >= MOST_PLAYED {
            return Err(LineError::NotUnderstood);
        }
        let card = cards::card(pupi, others)?;
        self.field
            .push(Drawn { card, number: 1 })
            .map_err(AllocError::from)?;
        Ok(format!(in alloc; "ok ; {}", State(card.state))?)
    }

    // `draw NUMBER...`, one for each card
    fn draw(&mut self, alloc: Global, numbers: &[&[u8]]) -> Result<String, LineError> {
        if numbers.len() != self.field.len() {
            return Err(LineError::NotUnderstood);
        }
        let numbers: Vec<u8> = numbers
            .iter()
            .map(|number| small_number(number))
            .try_collect(alloc)?;
        for (drawn, number) in self.field.iter_mut().zip(numbers.iter()) {
            drawn.number = *number;
        }
        Ok(format!(in alloc; "ok")?)
    }

    // The member that a word names, from 1.
    fn member(&mut self, word: &[u8]) -> Result<&mut Drawn, LineError> {
        let number = number_to(word, MOST_PLAYED)?;
        number
            .checked_sub(1)
            .and_then(|i| self.field.get_mut(i))
            .ok_or(LineError::NotUnderstood)
    }

    // `power I on`, `power I off`
    fn power(&mut self, alloc: Global, member: &[u8], word: &[u8]) -> Result<String, LineError> {
        let drawn = self.member(member)?;
        drawn.card = match word {
            b"on" => card_b::power_on(drawn.card),
            b"off" => card_b::power_off(drawn.card),
            _ => return Err(LineError::NotUnderstood),
        };
        Ok(format!(in alloc; "ok ; {}", State(drawn.card.state))?)
    }

    // `take I FRAME`
    fn take(
        &mut self,
        alloc: Global,
        member: &[u8],
        name: &[u8],
        value: &[u8],
    ) -> Result<String, LineError> {
        let drawn = self.member(member)?;
        let row = frames::row_line(alloc, name, value)?;
        let mut out = [0u8; frame_b::ANSWER_ROOM];
        let taken = card_b::take(drawn.card, drawn.number, row.as_slice(), &mut out);
        drawn.card = taken.card;
        let state = State(drawn.card.state);
        Ok(match taken.answer {
            Ok(Some(n)) => {
                let answer = Octets(bench::front(&out, n));
                format!(in alloc; "answer {answer} ; {state}")?
            }
            Ok(None) => format!(in alloc; "silent ; {state}")?,
            Err(e) => format!(in alloc; "{} ; {state}", Refused(e))?,
        })
    }

    // The reader after a turn, what it says, and the frame that it sends, which stands at the front of the row: a marker has 24 bits. A refusal leaves
    // the frame that is out.
    fn turned(&mut self, alloc: Global, turn: TurnB, row: &[u8]) -> Result<String, LineError> {
        let number = usize::from(self.reader.slot);
        let atqb = turn.atqb;
        self.reader = turn.reader;
        match turn.answer {
            AnswerB::Sends(n) => {
                self.frame = Vec::from_slice(alloc, bench::front(row, n))?;
                let frame = Octets(self.frame.as_slice());
                Ok(format!(in alloc; "send {frame}")?)
            }
            AnswerB::Marks(held) => {
                self.frame = Vec::from_slice(alloc, bench::front(row, 24))?;
                let slot = Slot {
                    number,
                    held,
                    atqb: &atqb,
                };
                let frame = Octets(self.frame.as_slice());
                Ok(format!(in alloc; "{slot} send {frame}")?)
            }
            AnswerB::Ends(held) => {
                let slot = Slot {
                    number,
                    held,
                    atqb: &atqb,
                };
                Ok(format!(in alloc; "{slot} done")?)
            }
            AnswerB::Attached(mbli) => Ok(format!(in alloc; "attached {mbli}")?),
            AnswerB::Halted => Ok(format!(in alloc; "halted")?),
            AnswerB::Declines(e) => Ok(format!(in alloc; "{}", Refused(e))?),
        }
    }

    // `reqb N [AFI]`, `wupb N [AFI]`
    // Kept: it is a bit of the frame that is sent or heard, or a field of the reader, as the definitions have it, and picks no step.
    fn request(
        &mut self,
        alloc: Global,
        wake: bool,
        slots: &[u8],
        others: &[&[u8]],
    ) -> Result<String, LineError> {
        let mut row = [0u8; frame_b::FRAME_ROOM];
        let turn = reader_b::request(
            self.reader,
            wake,
            small_number(slots)?,
            words::afi(others)?,
            &mut row,
        );
        self.turned(alloc, turn, &row)
    }

    // `attrib ATQB INDEX`
    fn attrib(&mut self, alloc: Global, atqb: &[u8], index: &[u8]) -> Result<String, LineError> {
        let mut row = [0u8; frame_b::FRAME_ROOM];
        let turn = reader_b::attach(
            self.reader,
            words::exact(atqb)?,
            small_number(index)?,
            &mut row,
        );
        self.turned(alloc, turn, &row)
    }

    // `hltb PUPI`
    fn hltb(&mut self, alloc: Global, pupi: &[u8]) -> Result<String, LineError> {
        let mut row = [0u8; frame_b::FRAME_ROOM];
        let turn = reader_b::halt(self.reader, words::exact(pupi)?, &mut row);
        self.turned(alloc, turn, &row)
    }

    // The reader hears a row; an empty one is silence.
    fn hear(&mut self, alloc: Global, heard: &[u8]) -> Result<String, LineError> {
        let mut row = [0u8; frame_b::FRAME_ROOM];
        let turn = reader_b::hear(self.reader, heard, &mut row);
        self.turned(alloc, turn, &row)
    }

    // `air`: the frame that is out goes to the whole field. Where none is, the reader refuses what it hears.
    fn air(&mut self, alloc: Global) -> Result<String, LineError> {
        let mut heard = [0u8; frame_b::ANSWER_ROOM];
        let mut bits = 0;
        if reader_b::is_awaiting(self.reader.phase) {
            for drawn in self.field.iter_mut() {
                let one = field_b::within::take_one(
                    *drawn,
                    self.frame.as_slice(),
                    &mut heard,
                    bits,
                );
                *drawn = one.drawn;
                bits = one.bits;
            }
        }
        self.hear(alloc, bench::front(&heard, bits))
    }

    // `field reqb N [AFI]`, `field wupb N [AFI]`: why it was refused, or a line for each slot as the list has it, and the cards.
    // Kept: it is a bit of the frame that is sent or heard, or a field of the reader, as the definitions have it, and picks no step.
    fn inquire(
        &mut self,
        alloc: Global,
        wake: bool,
        slots: &[u8],
        others: &[&[u8]],
    ) -> Result<String, LineError> {
        let inquired = slots_row::inquire_row(
            self.reader,
            wake,
            small_number(slots)?,
            words::afi(others)?,
            self.field.as_mut_slice(),
            self.list.as_mut_slice(),
        );
        self.reader = inquired.reader;
        if let AnswerB::Declines(e) = inquired.answer {
            return Ok(format!(in alloc; "{}", Refused(e))?);
        }
        let slots = Slots {
            list: self.list.as_slice(),
            count: inquired.slots,
        };
        let cards = Cards(self.field.as_slice());
        Ok(format!(in alloc; "{slots}{cards}")?)
    }

    // `room N`, 0 to 1024: a fresh list
    fn room(&mut self, alloc: Global, size: &[u8]) -> Result<String, LineError> {
        let n = number_to(size, 1024)?;
        self.list = vec![in alloc; UNWRITTEN; n]?;
        Ok(format!(in alloc; "room {n}")?)
    }
}

impl Program for Played {
    fn answer(&mut self, alloc: Global, words: &[&[u8]]) -> Result<String, LineError> {
        match words {
            [b"card", pupi, others @ ..] => self.card(alloc, pupi, others),
            [b"draw", numbers @ ..] => self.draw(alloc, numbers),
            [b"cards"] => {
                let cards = Cards(self.field.as_slice());
                Ok(format!(in alloc; "{cards}")?)
            }
            [b"power", member, word] => self.power(alloc, member, word),
            [b"take", member, name, value] => self.take(alloc, member, name, value),
            [b"clear"] => {
                self.field.clear();
                Ok(format!(in alloc; "clear")?)
            }
            [b"new"] => {
                self.reader = reader_b::new_reader();
                Ok(format!(in alloc; "new")?)
            }
            [b"reqb", slots, others @ ..] => self.request(alloc, false, slots, others),
            [b"wupb", slots, others @ ..] => self.request(alloc, true, slots, others),
            [b"attrib", atqb, index] => self.attrib(alloc, atqb, index),
            [b"hltb", pupi] => self.hltb(alloc, pupi),
            [b"hear", name, value] => {
                let row = frames::row_line(alloc, name, value)?;
                self.hear(alloc, row.as_slice())
            }
            [b"silence"] => self.hear(alloc, &[]),
            [b"air"] => self.air(alloc),
            [b"room", size] => self.room(alloc, size),
            [b"list"] => {
                let list = Hex(self.list.as_slice());
                Ok(format!(in alloc; "list {list}")?)
            }
            [b"field", b"reqb", slots, others @ ..] => self.inquire(alloc, false, slots, others),
            [b"field", b"wupb", slots, others @ ..] => self.inquire(alloc, true, slots, others),
            _ => Err(LineError::NotUnderstood),
        }
    }
}
