// The field swept.
use crate::cards::CardLine;
use crate::{Field, Outcome, Way};
use bench_text::Hex;
use card::Card;
use reader::Answer;
use std::alloc::{AllocError, Global};
use std::fmt;
use sweep::Start;

// How many frames the reader sent, the entries of its list, the cards as the sweep left them, and what was written of the log.
#[derive(Drop)]
pub struct Swept {
    frames: usize,
    found: Vec<Entry>,
    cards: Vec<Card>,
    pub log: Vec<u8>,
}

type Entry = [u8; 11];

impl fmt::Display for Swept {
    fn fmt<W: fmt::Write>(&self, f: &mut fmt::Formatter<W>) -> fmt::Result {
        write!(f, "frames {}", self.frames)?;
        for entry in self.found.iter() {
            write!(f, "\nfound {}", Hex(uid(entry)))?;
        }
        for card in self.cards.iter() {
            write!(f, "\n{}", CardLine(card))?;
        }
        write!(f, "\nlog {}", Hex(self.log.as_slice()))
    }
}

// An entry of the list is the UID's length, and its bytes.
fn uid(entry: &Entry) -> &[u8] {
    bench::front(&entry[1..], usize::from(entry[0]))
}

pub fn sweep(alloc: Global, field: &Field, way: Way) -> Result<Outcome, AllocError> {
    let mut log = vec![in alloc; 0; field.log]?;
    let mut list = vec![in alloc; 0; field.list]?;
    let swept = sweep_by(way, field, log.as_mut_slice(), list.as_mut_slice());
    if let Answer::Declines(refusal) = swept.answer {
        return Ok(Outcome::Refused(refusal));
    }
    log.truncate(swept.logged);
    let (entries, _) = list.as_slice().as_chunks::<11>();
    let found = entries.iter().take(swept.found);
    let cards = swept.cards.iter().take(field.cards.len());
    Ok(Outcome::Swept(Swept {
        frames: swept.frames,
        found: found.copied().collect(alloc)?,
        cards: cards.copied().collect(alloc)?,
        log,
    }))
}

fn sweep_by(way: Way, field: &Field, log: &mut [u8], list: &mut [u8]) -> sweep::Swept {
    let start = Start {
        reader: reader::new_reader(),
        tick: field.tick,
    };
    let cards = field.places();
    let n = field.cards.len();
    match (way, field.remembers) {
        (Way::Values, false) => sweep::sweep(start, cards, n, log, list),
        (Way::Values, true) => memory_sweep::sweep(start, cards, n, log, list),
        (Way::Row, false) => sweep_row::within::sweep_by_row(start, cards, n, log, list),
        (Way::Row, true) => memory_row::within::sweep_by_row(start, cards, n, log, list),
    }
}
