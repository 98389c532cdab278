// Document 01, "Frames on the air", and RATS and ATS of "RATS, ATS and blocks": the frames of a selection, written, and read where the
// reader reads them.
#![tactic(auto)]

pub mod ats;
pub mod heard;
mod level;
pub mod numbers;
pub mod sent;
pub mod within;

use refusal::Refusal;

// What the answer to ANTICOLLISION says: the level's bits are all known, or the first of them collided at a position below 32.
#[derive(Clone, Copy)]
pub enum RestSays {
    Whole,
    Collided,
    NotRest(Refusal),
}

// five: the level's bytes as far as they are known, zeros behind; known: how many of its 40 bits are known.
#[derive(Clone, Copy)]
pub struct Rest {
    pub says: RestSays,
    pub five: [u8; 5],
    pub known: u8,
}
