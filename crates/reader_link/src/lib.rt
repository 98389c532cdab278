// Document 01, "The reader and the sweep" and "RATS, ATS and blocks": the whole reader, every phase. `whole` has its calls.
#![tactic(auto)]

pub mod whole;

use block::Told;
use reader::{Answer, Reader};
use reader_blocks::ReaderLink;

// How far a reader is on the way to blocks: selecting or selected; RATS sent with its own size index; linked.
#[derive(Clone, Copy)]
pub enum Link {
    NoLink,
    RatsSent(u8),
    Linked(ReaderLink),
}

// A reader with its end of the block protocol. Once a link is there the reader in it is the selected one.
#[derive(Clone, Copy)]
pub struct LinkReader {
    pub reader: Reader,
    pub link: Link,
}

// What a reader answers to a call or a row. Selection: as crate reader has it. Opens: a good ATS, the card's size index.
// Blocks: so many air bits of the next frame at the front of the lent row (none: no frame), and what the host is told.
#[derive(Clone, Copy)]
pub enum LinkAnswer {
    Selection(Answer),
    Opens(u8),
    Blocks(usize, Told),
}

#[derive(Clone, Copy)]
pub struct LinkTurn {
    pub reader: LinkReader,
    pub answer: LinkAnswer,
}
