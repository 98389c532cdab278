// Document 02, T-10: the requests of the reader of vicinity cards, written as rows.
#![tactic(auto)]

pub mod within;

// Whom a request is for: the tag with a UID, every tag that is not quiet, or the selected one.
#[derive(Clone, Copy)]
pub enum Mode {
    Addressed,
    Any,
    Chosen,
}

// An inventory: with one slot or 16; with an AFI or without; the low len bits of the mask count.
#[derive(Clone, Copy)]
pub struct Round {
    pub one: bool,
    pub asks: bool,
    pub afi: u8,
    pub len: u8,
    pub mask: [u8; 8],
}

// Any other request: whom it is for, the Option flag, its code.
#[derive(Clone, Copy)]
pub struct Head {
    pub mode: Mode,
    pub uid: [u8; 8],
    pub option: bool,
    pub code: u8,
}
