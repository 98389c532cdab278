// Document 01, "RATS, ATS and blocks": the reader's end of the block protocol. No type holds bytes: payloads stay in the lent frame and in
// the lent messages, and a link holds places and counts. Crate reader_link puts it on the air.
#![tactic(auto, unfolding(crate::specs::ReaderRules::reader_i, crate::specs::ReaderRules::reader_again, crate::specs::ReaderRules::reader_repeats, crate::specs::ReaderRules::reader_echoes, crate::specs::ReaderRules::reader_takes_i, crate::specs::ReaderRules::reader_takes_ack, crate::specs::ReaderRules::lent_for, crate::specs::ReaderRules::reader_starts, crate::specs::ReaderRules::reader_parts))]

ghost use Rattle.std.specs.Prelude.{◌≡◌, cond, length, ◌<◌, ◌^◌};
ghost use Rattle.rows.specs.Rows.{overlay};
ghost use Rattle.block.specs.Cut.{part};
ghost use Rattle.block.specs.Block.{behind, block_bytes, bytes_in};
ghost use Rattle.reader_blocks.specs.ReaderFrames.{reader_hears};
ghost use Rattle.reader_blocks.specs.ReaderRules.{reader_open, reader_done, reader_at, reader_keeps, stops, reader_sends, reader_i, reader_again, ack_own, ack_other, reader_joins, last_is_out, asks_again, reader_repeats, reader_echoes, awaits_i, reader_takes_i, reader_takes_ack, reader_rules, reader_leaves, lent_for, reader_takes, is_open, reader_starts, reader_parts};

use block::{Block, BlockBytes, Told};
use refusal::Refusal;

// How far one message and its answer are: more to send; the last I out and nothing come; a chained I of the answer come.
#[derive(Clone, Copy)]
pub enum Turn {
    Sending,
    Awaiting,
    Joining,
}

// Where a reader stands: between messages, in one, DESELECT out, or with nothing more due.
#[derive(Clone, Copy)]
pub enum ReaderPhase {
    Open,
    Talking(Turn),
    Leaving,
    Finished,
    Stopped,
}

// The reader's end. own, card: size indexes; at: where in its message the last I begins; joined: bytes of the answer so far;
// again: times that I was sent again; repeats: repeats running.
#[derive(Clone, Copy)]
pub struct ReaderLink {
    pub own: u8,
    pub card: u8,
    pub number: bool,
    pub phase: ReaderPhase,
    pub at: usize,
    pub joined: usize,
    pub again: u8,
    pub repeats: u8,
}

// What a reader does, as a card's step.
#[derive(Clone, Copy)]
pub struct ReaderStep {
    pub link: ReaderLink,
    pub send: Block,
    pub told: Told,
    pub joins: bool,
}

// Between messages, with block number n.
pub fn open(own: u8, card: u8, n: bool) -> ReaderLink
    ensures { result ≡ reader_open own card n }
{
    ReaderLink {
        own,
        card,
        number: n,
        phase: ReaderPhase::Open,
        at: 0,
        joined: 0,
        again: 0,
        repeats: 0,
    }
}

// A reader with which nothing more is due.
fn done(phase: ReaderPhase) -> ReaderLink
    ensures { result ≡ reader_done phase }
{
    ReaderLink {
        phase,
        ..open(0, 0, false)
    }
}

// Declined, and nothing changes.
fn keeps(l: ReaderLink, e: Refusal) -> ReaderStep
    ensures { result ≡ reader_keeps l e }
{
    ReaderStep {
        link: l,
        send: Block::Nothing,
        told: Told::Refused(e),
        joins: false,
    }
}

// Declined, and the reader stopped.
fn stop(e: Refusal) -> ReaderStep
    ensures { result ≡ stops e }
{
    keeps(done(ReaderPhase::Stopped), e)
}

fn sends(l: ReaderLink, b: Block) -> ReaderStep
    ensures { result ≡ reader_sends l b }
{
    ReaderStep {
        link: l,
        send: b,
        told: Told::Quiet,
        joins: false,
    }
}

// The I of its message, of len bytes, that begins at place at.
fn sends_i(l: ReaderLink, n: bool, at: usize, len: usize) -> ReaderStep
    ensures { result ≡ reader_i l n at len }
{
    let chained = block::has_more(l.card, at, len);
    let turn = if chained {
        Turn::Sending
    } else {
        Turn::Awaiting
    };
    let link = ReaderLink {
        phase: ReaderPhase::Talking(turn),
        at,
        ..open(l.own, l.card, n)
    };
    sends(link, Block::I(n, chained))
}

// The last I again.
fn sends_again(l: ReaderLink, t: Turn, chained: bool) -> ReaderStep
    ensures { result ≡ reader_again l t chained }
{
    if l.again < 2 {
        let link = ReaderLink {
            phase: ReaderPhase::Talking(t),
            again: l.again + 1,
            repeats: 0,
            ..l
        };
        return sends(link, Block::I(l.number, chained));
    }
    stop(Refusal::Forbidden)
}

// The next I of its message. A message that ends before the last I ends before the next one too: 1, ahead of a sum that might not fit.
// Kept: `len` is a lent slice's length, and this the bound that the machine gives each; a type for it would be built at each call.
fn next_i(l: ReaderLink, len: usize) -> ReaderStep
    requires { len < 2 ^ 63 }
    ensures { lent_for l len result ≡ lent_for l len (ack_own l Turn.Sending len) }
{
    if len < l.at {
        return keeps(l, Refusal::Room);
    }
    sends_i(l, !l.number, l.at + block::payload_max(l.card), len)
}

// R(ACK) of the own number. This and what calls it give the step of the rules as far as it goes with the message that is lent.
fn ack_own(l: ReaderLink, t: Turn, len: usize) -> ReaderStep
    requires { len < 2 ^ 63 }
    ensures { lent_for l len result ≡ lent_for l len (ack_own l t len) }
{
    match t {
        Turn::Sending => next_i(l, len),
        Turn::Awaiting | Turn::Joining => stop(Refusal::Forbidden),
    }
}

// R(ACK) of the other number.
fn ack_other(l: ReaderLink, t: Turn) -> ReaderStep
    ensures { result ≡ ack_other l t }
{
    match t {
        Turn::Sending => sends_again(l, Turn::Sending, true),
        Turn::Awaiting => sends_again(l, Turn::Awaiting, false),
        Turn::Joining => stop(Refusal::Forbidden),
    }
}

fn takes_ack(l: ReaderLink, t: Turn, n: bool, len: usize) -> ReaderStep
    requires { len < 2 ^ 63 }
    ensures { lent_for l len result ≡ lent_for l len (reader_takes_ack l t n len) }
{
    if n == l.number {
        ack_own(l, t, len)
    } else {
        ack_other(l, t)
    }
}

// An I that is joined: n is the number then, end how many bytes are joined.
fn joins(l: ReaderLink, n: bool, chained: bool, end: usize) -> ReaderStep
    ensures { result ≡ reader_joins l n chained end }
{
    if chained {
        let link = ReaderLink {
            phase: ReaderPhase::Talking(Turn::Joining),
            joined: end,
            ..open(l.own, l.card, n)
        };
        return ReaderStep {
            joins: true,
            ..sends(link, Block::Ack(n))
        };
    }
    ReaderStep {
        told: Told::Message(end),
        joins: true,
        ..sends(open(l.own, l.card, n), Block::Nothing)
    }
}

fn last_is_out(t: Turn) -> bool
    ensures { result ≡ last_is_out t }
{
    matches!(t, Turn::Awaiting | Turn::Joining)
}

fn awaits_i(l: ReaderLink, t: Turn, n: bool) -> bool
    ensures { result ≡ awaits_i l t n }
{
    n == l.number && last_is_out(t)
}

// Kept: two numbers of two lent buffers, as the definitions of what an end hears take them.
fn takes_i(l: ReaderLink, t: Turn, n: bool, chained: bool, bytes: usize, room: usize) -> ReaderStep
    ensures { result ≡ reader_takes_i l t n chained bytes room }
{
    if !awaits_i(l, t, n) {
        stop(Refusal::Forbidden)
    } else if !block::joins_in(l.joined, bytes, room) {
        stop(Refusal::TooLong)
    } else {
        joins(l, !l.number, chained, l.joined + bytes)
    }
}

// What it sends after silence or a damaged frame.
fn asks_again(t: Turn, n: bool) -> Block
    ensures { result ≡ asks_again t n }
{
    match t {
        Turn::Sending | Turn::Awaiting => Block::Nak(n),
        Turn::Joining => Block::Ack(n),
    }
}

fn repeats(l: ReaderLink, phase: ReaderPhase, b: Block) -> ReaderStep
    ensures { result ≡ reader_repeats l phase b }
{
    if l.repeats < 2 {
        let link = ReaderLink {
            phase,
            repeats: l.repeats + 1,
            ..l
        };
        return sends(link, b);
    }
    stop(Refusal::Repeats)
}

fn echoes(l: ReaderLink, t: Turn, v: u8) -> ReaderStep
    ensures { result ≡ reader_echoes l t v }
{
    let w = v % 64;
    if block::wtx_ok(w) {
        let link = ReaderLink {
            phase: ReaderPhase::Talking(t),
            repeats: 0,
            ..l
        };
        return sends(link, Block::Wtx(w));
    }
    stop(Refusal::Forbidden)
}

// What a reader that awaits a block does with it.
fn rules(l: ReaderLink, t: Turn, b: Block, bytes: usize, room: usize, len: usize) -> ReaderStep
    requires { len < 2 ^ 63 }
    ensures { lent_for l len result ≡ lent_for l len (reader_rules l t b bytes room len) }
{
    match b {
        Block::I(n, chained) => takes_i(l, t, n, chained, bytes, room),
        Block::Ack(n) => takes_ack(l, t, n, len),
        Block::Nak(_) | Block::Deselect | Block::Unknown => stop(Refusal::Forbidden),
        Block::Wtx(v) => echoes(l, t, v),
        Block::Nothing => repeats(l, ReaderPhase::Talking(t), asks_again(t, l.number)),
    }
}

// What a reader that has sent DESELECT does with a block.
fn leaves(l: ReaderLink, b: Block) -> ReaderStep
    ensures { result ≡ reader_leaves l b }
{
    match b {
        Block::Deselect => ReaderStep {
            told: Told::Deselected,
            ..sends(done(ReaderPhase::Finished), Block::Nothing)
        },
        Block::Nothing => repeats(l, ReaderPhase::Leaving, Block::Deselect),
        _ => stop(Refusal::Forbidden),
    }
}

// A step as far as it goes with a message of len bytes lent, from which an I is cut.
fn lent_for(l: ReaderLink, len: usize, step: ReaderStep) -> ReaderStep
    ensures { result ≡ lent_for l len step }
{
    if block::is_i(step.send) {
        if len < step.link.at {
            return keeps(l, Refusal::Room);
        }
        if limits::MESSAGE_MAX < len {
            return keeps(l, Refusal::TooLong);
        }
    }
    step
}

// What a reader does with a block whose payload has so many bytes, with a buffer of room bytes and a message of len bytes lent.
fn takes(l: ReaderLink, b: Block, bytes: usize, room: usize, len: usize) -> ReaderStep
    requires { len < 2 ^ 63 }
    ensures { result ≡ reader_takes l l.phase b bytes room len }
{
    match l.phase {
        ReaderPhase::Talking(t) => lent_for(l, len, rules(l, t, b, bytes, room, len)),
        ReaderPhase::Leaving => leaves(l, b),
        _ => keeps(l, Refusal::NotDue),
    }
}

pub fn is_open(phase: ReaderPhase) -> bool
    ensures { result ≡ is_open phase }
{
    matches!(phase, ReaderPhase::Open)
}

// The host's message, of len bytes.
pub fn starts(l: ReaderLink, len: usize) -> ReaderStep
    ensures { result ≡ reader_starts l len }
{
    if !is_open(l.phase) {
        keeps(l, Refusal::NotDue)
    } else if len > limits::MESSAGE_MAX {
        keeps(l, Refusal::TooLong)
    } else {
        sends_i(l, l.number, 0, len)
    }
}

// The host's DESELECT.
pub fn parts(l: ReaderLink) -> ReaderStep
    ensures { result ≡ reader_parts l }
{
    if !is_open(l.phase) {
        return keeps(l, Refusal::NotDue);
    }
    let link = ReaderLink {
        phase: ReaderPhase::Leaving,
        ..open(l.own, l.card, l.number)
    };
    sends(link, Block::Deselect)
}

// What a reader does with a frame's bytes, none where it is silence or damaged. An accepted payload goes straight behind those joined.
// Kept: its twin in card_blocks differs in the link and in the rules that it calls: a trait over both would have to carry two contracts of other
// definitions.
pub fn hears(l: ReaderLink, bytes: &[u8], message: &[u8], buffer: &mut [u8]) -> ReaderStep
    ensures value { result ≡ reader_hears l bytes.now (length buffer.old) (length message.now) }
    ensures buffer_after { buffer.new ≡ cond result.joins (overlay buffer.old l.joined (behind bytes.now)) buffer.old }
{
    let payload = block::behind(bytes);
    let step = takes(
        l,
        block::read_block(bytes),
        payload.len(),
        buffer.len(),
        message.len(),
    );
    if step.joins {
        block::join(buffer, l.joined, payload);
    }
    step
}

// The bytes of the block that a step sends.
pub fn sent(step: ReaderStep, message: &[u8]) -> BlockBytes
    ensures { result ≡ bytes_in (block_bytes step.send (part step.link.card step.link.at message.now)) }
{
    block::block_bytes(step.send, step.link.card, step.link.at, message)
}
