// A card's end of the block protocol as bytes, those of the places 20 to 44.
ghost use Rattle.std.specs.Prelude.{◌≡◌};
ghost use Rattle.kept_card.specs.KeptLink.{Sized, number_tag, number_in, phase_tag, phase_wtx, phase_in, block_tag, block_first, block_second, block_in, link_bytes, link_in};

use block::Block;
use card_blocks::{CardLink, CardPhase};

fn number_tag(n: bool) -> u8
    ensures { result ≡ number_tag n }
{
    u8::from(!n)
}

fn number_in(b: u8) -> bool
    ensures { result ≡ number_in b }
{
    b != 1
}

// Kept: the numbers in the lent bytes are the C interface, and any byte is read: the definitions of the state name them.
fn phase_tag(p: CardPhase) -> u8
    ensures { result ≡ phase_tag p }
{
    match p {
        CardPhase::Receiving => 0,
        CardPhase::Owing => 1,
        CardPhase::Waiting(_) => 2,
        CardPhase::Answering => 3,
    }
}

fn phase_wtx(p: CardPhase) -> u8
    ensures { result ≡ phase_wtx p }
{
    match p {
        CardPhase::Waiting(w) => w,
        _ => 0,
    }
}

// Kept: the numbers in the lent bytes are the C interface, and any byte is read: the definitions of the state name them.
fn phase_in(t: u8, w: u8) -> CardPhase
    ensures { result ≡ phase_in t w }
{
    match t {
        0 => CardPhase::Receiving,
        1 => CardPhase::Owing,
        2 => CardPhase::Waiting(w),
        _ => CardPhase::Answering,
    }
}

// Kept: the numbers in the lent bytes are the C interface, and any byte is read: the definitions of the state name them.
fn block_tag(b: Block) -> u8
    ensures { result ≡ block_tag b }
{
    match b {
        Block::I(_, _) => 1,
        Block::Ack(_) => 2,
        Block::Nak(_) => 3,
        Block::Deselect => 4,
        Block::Wtx(_) => 5,
        Block::Unknown => 6,
        Block::Nothing => 0,
    }
}

fn block_first(b: Block) -> u8
    ensures { result ≡ block_first b }
{
    match b {
        Block::I(n, _) | Block::Ack(n) | Block::Nak(n) => kept::flag(n),
        Block::Wtx(w) => w,
        Block::Deselect | Block::Unknown | Block::Nothing => 0,
    }
}

fn block_second(b: Block) -> u8
    ensures { result ≡ block_second b }
{
    match b {
        Block::I(_, chained) => kept::flag(chained),
        _ => 0,
    }
}

// Kept: the numbers in the lent bytes are the C interface, and any byte is read: the definitions of the state name them.
fn block_in(t: u8, x: u8, y: u8) -> Block
    ensures { result ≡ block_in t x y }
{
    let n = x == 1;
    match t {
        0 => Block::Nothing,
        1 => Block::I(n, y == 1),
        2 => Block::Ack(n),
        3 => Block::Nak(n),
        4 => Block::Deselect,
        5 => Block::Wtx(x),
        _ => Block::Unknown,
    }
}

pub fn link_bytes(l: CardLink) -> [u8; 25]
    ensures value { result ≡ link_bytes l }
    ensures sized { Sized l }
{
    let number = number_tag(l.number);
    let phase = phase_tag(l.phase);
    let wtx = phase_wtx(l.phase);
    let block = block_tag(l.last);
    let first = block_first(l.last);
    let second = block_second(l.last);
    let j = kept::word(l.joined);
    let a = kept::word(l.at);
    [
        0, l.own, l.reader, number, phase, wtx, block, first, second, j[0], j[1], j[2], j[3], j[4],
        j[5], j[6], j[7], a[0], a[1], a[2], a[3], a[4], a[5], a[6], a[7],
    ]
}

pub fn link_of(b: &[u8]) -> CardLink
    ensures { result ≡ link_in b.now }
{
    CardLink {
        own: kept::at(b, 21),
        reader: kept::at(b, 22),
        number: number_in(kept::at(b, 23)),
        phase: phase_in(kept::at(b, 24), kept::at(b, 25)),
        last: block_in(kept::at(b, 26), kept::at(b, 27), kept::at(b, 28)),
        joined: kept::number_at(b, 29),
        at: kept::number_at(b, 37),
    }
}
