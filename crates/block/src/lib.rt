// Document 01, "RATS, ATS and blocks": what a block is, its bytes, and how a message is cut into blocks. Neither CID nor NAD.
#![tactic(auto)]

// A block on the air. Only the crates of this repository call these functions.
pub mod within;

ghost use Rattle.std.specs.Prelude.{◌≡◌, cond, ◌∷◌, ◌+◌, ◌≤◌, length, get_or, eqb};
ghost use Rattle.rows.specs.Rows.{overlay};
ghost use Rattle.block.specs.Cut.{payload_max, follows, part, fits};
ghost use Rattle.block.specs.Block.{behind, first_byte, kind, whole, block_of, is_i, block_bytes, bytes_in, wtx_ok};

use refusal::Refusal;

// A block without its payload. I: number, chained; Ack, Nak: number; Wtx: its value.
// Unknown is a good frame that is no block; Nothing is silence or a damaged frame where it is heard, and silence where it is sent.
#[derive(Clone, Copy)]
pub enum Block {
    I(bool, bool),
    Ack(bool),
    Nak(bool),
    Deselect,
    Wtx(u8),
    Unknown,
    Nothing,
}

// A frame's bytes without CRC_A: so many at the front, zeros behind.
// Kept: no heap, so the bytes stand in a fixed row with their count beside it.
#[derive(Clone, Copy)]
pub struct BlockBytes {
    pub bytes: [u8; 256],
    pub count: usize,
}

// What a host is told: a whole message of so many bytes, that its WTX was granted, that the card is deselected, a refusal.
#[derive(Clone, Copy)]
pub enum Told {
    Quiet,
    Message(usize),
    Granted,
    Deselected,
    Refused(Refusal),
}

// The one block that carries a part of a message.
pub fn is_i(b: Block) -> bool
    ensures { result ≡ is_i b }
{
    matches!(b, Block::I(_, _))
}

// The longest payload that goes to a receiver of a size index.
pub fn payload_max(index: u8) -> usize
    ensures { result ≡ payload_max index }
{
    selection::numbers::size_of(index) - 3
}

// Of a message of len bytes more follows the I that begins at place at.
pub fn has_more(index: u8, at: usize, len: usize) -> bool
    ensures { result ≡ follows index at len }
{
    at < len.saturating_sub(payload_max(index))
}

// The payload of that I.
fn part<'a>(index: u8, at: usize, message: &'a [u8]) -> &'a [u8]
    ensures { result.now ≡ part index at message.now }
{
    let rest = &message[at.min(message.len())..];
    &rest[..payload_max(index).min(rest.len())]
}

// Whether more bytes behind those that are joined fit a buffer of room bytes, and a message.
pub fn joins_in(joined: usize, bytes: usize, room: usize) -> bool
    ensures { result ≡ fits (joined + bytes) room }
{
    joined.saturating_add(bytes) <= room.min(limits::MESSAGE_MAX)
}

// A value that WTX may have.
#[tactic(auto, unfolding(crate::specs::Block::wtx_ok))]
pub fn wtx_ok(v: u8) -> bool
    ensures { result ≡ wtx_ok v }
{
    matches!(v, 1..=59)
}

// A block's first byte; 0 for what is no block.
fn first_byte(b: Block) -> u8
    ensures { result ≡ first_byte b }
{
    match b {
        Block::I(n, chained) => 0x02 + u8::from(n) + 0x10 * u8::from(chained),
        Block::Ack(n) => 0xA2 + u8::from(n),
        Block::Nak(n) => 0xB2 + u8::from(n),
        Block::Deselect => 0xC2,
        Block::Wtx(_) => 0xF2,
        Block::Unknown | Block::Nothing => 0,
    }
}

// The kind of block that a first byte begins.
// Kept: no From, since a first byte alone is no block: what follows it decides (`whole_block`).
fn kind_of(first: u8) -> Block
    ensures { result ≡ kind first }
{
    match first {
        0x02 => Block::I(false, false),
        0x03 => Block::I(true, false),
        0x12 => Block::I(false, true),
        0x13 => Block::I(true, true),
        0xA2 => Block::Ack(false),
        0xA3 => Block::Ack(true),
        0xB2 => Block::Nak(false),
        0xB3 => Block::Nak(true),
        0xC2 => Block::Deselect,
        0xF2 => Block::Wtx(0),
        _ => Block::Unknown,
    }
}

// That block with what follows its first byte: after an I any payload, after a WTX's one byte, after the others none.
fn whole_block(b: Block, rest: &[u8]) -> Block
    ensures { result ≡ whole b (eqb (length rest.now) 0) (eqb (length rest.now) 1) (get_or rest.now 0 0) }
{
    match b {
        Block::Ack(_) | Block::Nak(_) | Block::Deselect => if rest.is_empty() {
            b
        } else {
            Block::Unknown
        },
        Block::Wtx(_) => match rest {
            [v] => Block::Wtx(*v),
            _ => Block::Unknown,
        },
        Block::I(_, _) | Block::Unknown | Block::Nothing => b,
    }
}

// The block of a good frame's bytes; a frame of none is silence.
pub fn read_block(bytes: &[u8]) -> Block
    ensures { result ≡ block_of bytes.now }
{
    match bytes {
        [] => Block::Nothing,
        [first, rest @ ..] => whole_block(kind_of(*first), rest),
    }
}

// The bytes behind a frame's first.
pub fn behind<'a>(bytes: &'a [u8]) -> &'a [u8]
    ensures { result.now ≡ behind bytes.now }
{
    match bytes {
        [] => bytes,
        [_, rest @ ..] => rest,
    }
}

// Writes an accepted payload straight behind the bytes that are joined, where it fits; else nothing changes.
pub fn join(buffer: &mut [u8], joined: usize, payload: &[u8]) -> bool
    ensures value { result ≡ fits (joined + length payload.now) (length buffer.old) }
    ensures buffer_after { buffer.new ≡ cond result (overlay buffer.old joined payload.now) buffer.old }
{
    let joins = joins_in(joined, payload.len(), buffer.len());
    if joins {
        rows::within::put(&mut buffer[joined..], 0, payload);
    }
    joins
}

// A few bytes as a block's.
fn bytes_in(few: &[u8]) -> BlockBytes
    requires { length few.now ≤ 256 }
    ensures { result ≡ bytes_in few.now }
{
    let mut bytes = [0u8; 256];
    rows::within::put(&mut bytes, 0, few);
    BlockBytes {
        bytes,
        count: few.len(),
    }
}

// The bytes of an I.
fn i_bytes(first: u8, payload: &[u8]) -> BlockBytes
    requires { length payload.now ≤ 253 }
    ensures { result ≡ bytes_in (first ∷ payload.now) }
{
    let mut bytes = [0u8; 256];
    bytes[0] = first;
    rows::within::put(&mut bytes[1..], 0, payload);
    BlockBytes {
        bytes,
        count: payload.len() + 1,
    }
}

// The bytes of a block; an I's payload is the part of the message that begins at place at, for a receiver of a size index.
pub fn block_bytes(b: Block, index: u8, at: usize, message: &[u8]) -> BlockBytes
    ensures { result ≡ bytes_in (block_bytes b (part index at message.now)) }
{
    let first = first_byte(b);
    match b {
        Block::I(_, _) => i_bytes(first, part(index, at, message)),
        Block::Ack(_) | Block::Nak(_) | Block::Deselect => bytes_in(&[first]),
        Block::Wtx(v) => bytes_in(&[first, v]),
        Block::Unknown | Block::Nothing => bytes_in(&[]),
    }
}
