// What comes of a call or a row, as it is printed.
use bench_lines::Refused;
use bench_text::{Hex, Row};
use block::Told;
use reader::{Answer, Reader};
use reader_link::{LinkAnswer, LinkTurn};
use std::fmt;

// The reader's turn; the bits that it sends stand at the front of `sent`, the card's whole answer at the front of `answer`.
#[derive(Clone, Copy)]
pub struct Said<'a> {
    pub turn: LinkTurn,
    pub sent: &'a [u8],
    pub answer: &'a [u8],
}

impl fmt::Display for Said<'_> {
    fn fmt<W: fmt::Write>(&self, f: &mut fmt::Formatter<W>) -> fmt::Result {
        let card = Chosen(self.turn.reader.reader);
        match self.turn.answer {
            LinkAnswer::Selection(Answer::Sends(n))
            | LinkAnswer::Blocks(n, Told::Quiet | Told::Granted) => {
                write!(f, "send {}", self.row(n))
            }
            LinkAnswer::Selection(Answer::Finds(n)) => {
                write!(f, "found {card} send {}", self.row(n))
            }
            LinkAnswer::Selection(Answer::Selects) => write!(f, "selected {card}"),
            LinkAnswer::Opens(index) => write!(f, "open {}", selection::numbers::size_of(index)),
            LinkAnswer::Blocks(_, Told::Message(n)) => {
                write!(f, "answered {}", Hex(bench::front(self.answer, n)))
            }
            LinkAnswer::Selection(Answer::Finishes) | LinkAnswer::Blocks(_, Told::Deselected) => {
                f.write_str("finished")
            }
            LinkAnswer::Selection(Answer::Declines(refusal))
            | LinkAnswer::Blocks(_, Told::Refused(refusal)) => { write!(f, "{}", Refused(refusal)) }
        }
    }
}

impl Said<'_> {
    fn row(&self, bits: usize) -> Row<'_> {
        Row(bench::front(self.sent, bits))
    }
}

// `UID SAK`, of the card that the reader has chosen.
#[derive(Clone, Copy)]
struct Chosen(Reader);

impl fmt::Display for Chosen {
    fn fmt<W: fmt::Write>(&self, f: &mut fmt::Formatter<W>) -> fmt::Result {
        let uid = self.0.uid;
        let bytes = bench::front(&uid.bytes, uid::byte_count(uid.size));
        write!(f, "{} {}", Hex(bytes), Hex(&[self.0.sak]))
    }
}
