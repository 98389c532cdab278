// T-03: one known card of the field woken.
use crate::cards::CardLine;
use crate::{Field, Outcome};
use bench_lines::Refused;
use bench_text::{Hex, Row};
use card::Card;
use limits::ROW_ROOM;
use reader::{Answer, Reader};
use reader_link::{Link, LinkAnswer, LinkReader};
use refusal::Refusal;
use std::alloc::{AllocError, Global};
use std::fmt;

// The reader and its last answer, how many frames it sent, and the cards.
#[derive(Drop)]
pub struct Woken {
    reader: Reader,
    answer: Answer,
    frames: usize,
    cards: Vec<Card>,
}

// What a reader answers when RATS is asked of it: `send ROW` or `refused 11`. No card hears it.
#[derive(Clone, Copy)]
struct Rats(Reader);

// `selected UID SAK` and `frames N`, or `refused 7`; then what the reader answers to RATS now, and the cards.
impl fmt::Display for Woken {
    fn fmt<W: fmt::Write>(&self, f: &mut fmt::Formatter<W>) -> fmt::Result {
        match self.answer {
            Answer::Declines(refusal) => write!(f, "{}", Refused(refusal))?,
            _ => {
                let uid = &self.reader.uid;
                let bytes = Hex(bench::front(&uid.bytes, uid::byte_count(uid.size)));
                write!(f, "selected {bytes} {}", Hex(&[self.reader.sak]))?;
                write!(f, "\nframes {}", self.frames)?;
            }
        }
        write!(f, "\nrats {}", Rats(self.reader))?;
        for card in self.cards.iter() {
            write!(f, "\n{}", CardLine(card))?;
        }
        Ok(())
    }
}

impl fmt::Display for Rats {
    fn fmt<W: fmt::Write>(&self, f: &mut fmt::Formatter<W>) -> fmt::Result {
        let reader = LinkReader {
            reader: self.0,
            link: Link::NoLink,
        };
        let mut row = [0; ROW_ROOM];
        match reader_link::whole::rats(reader, 8, &mut row).answer {
            LinkAnswer::Selection(Answer::Declines(refusal)) => write!(f, "{}", Refused(refusal)),
            answer => {
                let bits = reader_link::whole::bits_of(answer);
                write!(f, "send {}", Row(bench::front(&row, bits)))
            }
        }
    }
}

pub fn wake(alloc: Global, field: &Field, uid: &[u8]) -> Result<Outcome, AllocError> {
    let n = field.cards.len();
    let woken = wake::wake(reader::new_reader(), uid, field.places(), n);
    match woken.answer {
        Answer::Declines(refusal) if !matches!(refusal, Refusal::Silence) => {
            Ok(Outcome::Refused(refusal))
        }
        answer => Ok(Outcome::Woken(Woken {
            reader: woken.reader,
            answer,
            frames: woken.frames,
            cards: woken.cards.iter().take(n).copied().collect(alloc)?,
        })),
    }
}
