// A card and a reader that speak to each other, frame by frame: from new ends to open ones.
#![tactic(auto)]

ghost use Rattle.std.specs.Prelude.{◌≡◌};
ghost use Rattle.bench_ends.specs.Ends.{declined_in, refused_in, refusal_in, size_in};

use block::Told;
use card_link::LinkCard;
use limits::ROW_ROOM;
use reader::Answer;
use reader_link::{LinkAnswer, LinkReader, LinkTurn};
use refusal::Refusal;

// Both ends, and what the reader answered last.
#[derive(Clone, Copy)]
pub struct Ends {
    pub reader: LinkReader,
    pub card: LinkCard,
    pub answer: LinkAnswer,
}

// A new reader selects the card, which has power.
pub fn selected(card: LinkCard) -> Ends {
    let mut row = [0; ROW_ROOM];
    let turn = reader_link::whole::select(reader_link::whole::new_reader(), &mut row);
    speak(turn, card, row)
}

// .. and then sends RATS with its size index.
pub fn opened(card: LinkCard, index: u8) -> Ends {
    let ends = selected(card);
    if refusal_in(ends.answer).is_some() {
        return ends;
    }
    let mut row = [0; ROW_ROOM];
    let turn = reader_link::whole::rats(ends.reader, index, &mut row);
    speak(turn, ends.card, row)
}

// Frames to and fro until the reader sends none, 40 at most: selection takes 1 and two for each level, RATS takes 1. The first stands in the row.
// No end hands in or gets a message.
fn speak(turn: LinkTurn, card: LinkCard, row: [u8; ROW_ROOM]) -> Ends {
    let mut sent = row;
    let mut heard = [0; ROW_ROOM];
    let mut ends = after(turn, card);
    for _ in 0..40 {
        let bits = reader_link::whole::bits_of(ends.answer);
        if bits == 0 {
            return ends;
        }
        let frame = bench::front(&sent, bits);
        let taken = card_link::whole::take(ends.card, frame, b"", &mut [], &mut heard);
        let answer = bench::front(&heard, taken.bits);
        let turn = reader_link::whole::hear(ends.reader, answer, b"", &mut [], &mut sent);
        ends = after(turn, taken.card);
    }
    ends
}

fn after(turn: LinkTurn, card: LinkCard) -> Ends {
    Ends {
        reader: turn.reader,
        card,
        answer: turn.answer,
    }
}

// The card's frame size, where the answer is that it has opened.
pub fn size_in(answer: LinkAnswer) -> Option<usize>
    ensures { result ≡ size_in answer }
{
    match answer {
        LinkAnswer::Opens(index) => Some(selection::numbers::size_of(index)),
        _ => None,
    }
}

// The refusal in an answer of the reader ..
pub fn refusal_in(answer: LinkAnswer) -> Option<Refusal>
    ensures { result ≡ refusal_in answer }
{
    match answer {
        LinkAnswer::Selection(answer) => declined_in(answer),
        LinkAnswer::Opens(_) => None,
        LinkAnswer::Blocks(_, told) => refused_in(told),
    }
}

// .. in what is told to a host ..
pub fn refused_in(told: Told) -> Option<Refusal>
    ensures { result ≡ refused_in told }
{
    match told {
        Told::Refused(refusal) => Some(refusal),
        _ => None,
    }
}

// .. in an answer of a selection.
pub fn declined_in(answer: Answer) -> Option<Refusal>
    ensures { result ≡ declined_in answer }
{
    match answer {
        Answer::Declines(refusal) => Some(refusal),
        _ => None,
    }
}
