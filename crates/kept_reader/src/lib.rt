// A whole reader kept in lent bytes: its selection (`select`), its link (`link`), and what it answered last.
#![tactic(auto, unfolding(crate::specs::KeptReader::selection_bytes, crate::specs::KeptReader::selection_of, crate::specs::KeptReader::linked_bytes, crate::specs::KeptReader::linked_of, crate::specs::KeptReader::link_of, crate::specs::KeptReader::stays))]

pub mod link;
pub mod select;
pub mod within;

ghost use Rattle.std.specs.Prelude.{◌≡◌, ◌<◌};
ghost use Rattle.kept_reader.specs.KeptReader.{Fits, reader_of, selection_number, answer_number, selection_refuses, answer_refuses, selection_event, answer_event, selection_length, answer_length, answer_bytes, stays};

use reader::Answer;
use reader_link::{LinkAnswer, LinkReader, LinkTurn};

// The reader that lent bytes say.
pub fn reader_of(b: &[u8]) -> LinkReader
    ensures { result ≡ reader_of b.now }
{
    LinkReader {
        reader: select::selection_of(b),
        link: link::link_of(b),
    }
}

// So many bits that a selection's answer sends, or minus the refusal's number.
pub fn selection_number(a: Answer) -> usize
    ensures { result ≡ selection_number a }
{
    match a {
        Answer::Sends(n) | Answer::Finds(n) => n,
        Answer::Selects | Answer::Finishes => 0,
        Answer::Declines(e) => kept::refused(e),
    }
}

// So many bits to send, or minus the refusal's number.
pub fn answer_number(a: LinkAnswer) -> usize
    ensures { result ≡ answer_number a }
{
    match a {
        LinkAnswer::Selection(s) => selection_number(s),
        LinkAnswer::Opens(_) => 0,
        LinkAnswer::Blocks(n, t) => kept::told_number(n, t),
    }
}

// Is a selection's answer a refusal?
pub fn selection_refuses(a: Answer) -> bool
    ensures { result ≡ selection_refuses a }
{
    matches!(a, Answer::Declines(_))
}

fn answer_refuses(a: LinkAnswer) -> bool
    ensures { result ≡ answer_refuses a }
{
    match a {
        LinkAnswer::Selection(s) => selection_refuses(s),
        LinkAnswer::Opens(_) => false,
        LinkAnswer::Blocks(_, t) => kept::told_refuses(t),
    }
}

// The number of the event that a selection's answer tells of, 0 for none.
// Kept: the numbers in the lent bytes are the C interface, and any byte is read: the definitions of the state name them.
pub fn selection_event(a: Answer) -> u8
    ensures { result ≡ selection_event a }
{
    match a {
        Answer::Finds(_) => 1,
        Answer::Selects => 2,
        Answer::Finishes => 3,
        Answer::Sends(_) | Answer::Declines(_) => 0,
    }
}

fn answer_event(a: LinkAnswer) -> u8
    ensures { result ≡ answer_event a }
{
    match a {
        LinkAnswer::Selection(s) => selection_event(s),
        LinkAnswer::Opens(_) => 4,
        LinkAnswer::Blocks(_, t) => kept::told_event(t),
    }
}

// What comes with it: the byte index of a refusal (T-07).
pub fn selection_length(a: Answer) -> usize
    ensures { result ≡ selection_length a }
{
    match a {
        Answer::Declines(e) => kept::place(e),
        _ => 0,
    }
}

fn answer_length(a: LinkAnswer) -> usize
    ensures { result ≡ answer_length a }
{
    match a {
        LinkAnswer::Selection(s) => selection_length(s),
        LinkAnswer::Opens(i) => usize::from(i),
        LinkAnswer::Blocks(_, t) => kept::told_length(t),
    }
}

fn answer_bytes(a: LinkAnswer) -> [u8; 9]
    ensures value { result ≡ answer_bytes a }
    ensures a_bound { answer_length a < 18446744073709551616 }
{
    let w = kept::word(answer_length(a));
    [
        answer_event(a),
        w[0],
        w[1],
        w[2],
        w[3],
        w[4],
        w[5],
        w[6],
        w[7],
    ]
}

// Was a call on the reader x refused, and does x stay what it was?
fn stays(x: LinkReader, t: LinkTurn) -> bool
    ensures value { result ≡ stays x t }
    ensures fits { Fits x × Fits t.reader }
{
    let selection_stays = select::selection_bytes(x.reader)
        == select::selection_bytes(t.reader.reader);
    let link_stays = link::link_bytes(x.link) == link::link_bytes(t.reader.link);
    answer_refuses(t.answer) && selection_stays && link_stays
}
