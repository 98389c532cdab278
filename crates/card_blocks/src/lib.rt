// Document 01, "RATS, ATS and blocks": the card's end of the block protocol. No type holds bytes: payloads stay in the lent frame and in
// the lent messages, and a link holds places and counts. Crate card_link puts it on the air.
#![tactic(auto, unfolding(crate::specs::CardRules::card_i, crate::specs::CardRules::card_takes_i, crate::specs::CardRules::card_takes_ack, crate::specs::CardRules::card_takes_nak, crate::specs::CardRules::lent_for, crate::specs::CardRules::card_takes, crate::specs::CardRules::card_replies, crate::specs::CardRules::card_asks))]

ghost use Rattle.std.specs.Prelude.{◌≡◌, cond, length, ◌<◌, ◌^◌};
ghost use Rattle.rows.specs.Rows.{overlay};
ghost use Rattle.block.specs.Cut.{part};
ghost use Rattle.block.specs.Block.{behind, block_bytes, bytes_in};
ghost use Rattle.card_blocks.specs.CardFrames.{card_hears};
ghost use Rattle.card_blocks.specs.CardRules.{card_open, card_at, card_silent, card_sends, card_i, card_joins, card_next, card_granted, card_takes_i, card_takes_ack, card_takes_nak, card_rules, owes, lent_for, card_takes, card_replies, card_asks};

use block::{Block, BlockBytes, Told};
use refusal::Refusal;

// Where a card in Protocol stands: Waiting for the reply to the WTX that it asked, Answering while a chained I of its answer is out.
#[derive(Clone, Copy)]
pub enum CardPhase {
    Receiving,
    Owing,
    Waiting(u8),
    Answering,
}

// The card's end. own, reader: size indexes; joined: bytes of the message so far; at: where in its answer the last I begins.
#[derive(Clone, Copy)]
pub struct CardLink {
    pub own: u8,
    pub reader: u8,
    pub number: bool,
    pub phase: CardPhase,
    pub last: Block,
    pub joined: usize,
    pub at: usize,
}

// What a card does: its link afterwards, the block that it sends, what its host is told, and whether the payload is joined.
#[derive(Clone, Copy)]
pub struct CardStep {
    pub link: CardLink,
    pub send: Block,
    pub told: Told,
    pub joins: bool,
}

// After RATS.
pub fn open(own: u8, reader: u8) -> CardLink
    ensures { result ≡ card_open own reader }
{
    CardLink {
        own,
        reader,
        number: true,
        phase: CardPhase::Receiving,
        last: Block::Nothing,
        joined: 0,
        at: 0,
    }
}

fn silent(c: CardLink, told: Told) -> CardStep
    ensures { result ≡ card_silent c told }
{
    CardStep {
        link: c,
        send: Block::Nothing,
        told,
        joins: false,
    }
}

// Sends what its link then has as its last block.
fn sends(c: CardLink) -> CardStep
    ensures { result ≡ card_sends c }
{
    CardStep {
        send: c.last,
        ..silent(c, Told::Quiet)
    }
}

// The I of its answer, of len bytes, that begins at place at.
fn sends_i(c: CardLink, n: bool, at: usize, len: usize) -> CardStep
    ensures { result ≡ card_i c n at len }
{
    let chained = block::has_more(c.reader, at, len);
    let phase = if chained {
        CardPhase::Answering
    } else {
        CardPhase::Receiving
    };
    sends(CardLink {
        number: n,
        phase,
        last: Block::I(n, chained),
        joined: 0,
        at,
        ..c
    })
}

// A card of this number that owes its host's answer.
fn owing(c: CardLink, n: bool) -> CardLink
    ensures { result ≡ card_at c n CardPhase.Owing Block.Nothing 0 0 }
{
    CardLink {
        number: n,
        phase: CardPhase::Owing,
        last: Block::Nothing,
        joined: 0,
        at: 0,
        ..c
    }
}

// An I that is joined: n is the number then, end how many bytes are joined.
fn joins(c: CardLink, n: bool, chained: bool, end: usize) -> CardStep
    ensures { result ≡ card_joins c n chained end }
{
    if chained {
        let link = CardLink {
            number: n,
            phase: CardPhase::Receiving,
            last: Block::Ack(n),
            joined: end,
            at: 0,
            ..c
        };
        return CardStep {
            joins: true,
            ..sends(link)
        };
    }
    CardStep {
        joins: true,
        ..silent(owing(c, n), Told::Message(end))
    }
}

// Kept: two numbers of two lent buffers, as the definitions of what an end hears take them.
fn takes_i(c: CardLink, chained: bool, bytes: usize, room: usize) -> CardStep
    ensures { result ≡ card_takes_i c chained bytes room }
{
    if block::joins_in(c.joined, bytes, room) {
        return joins(c, !c.number, chained, c.joined + bytes);
    }
    silent(c, Told::Refused(Refusal::TooLong))
}

// The next I of its answer. An answer that ends before the last I ends before the next one too: 1, ahead of a sum that might not fit.
// Kept: `len` is a lent slice's length, and this the bound that the machine gives each; a type for it would be built at each call.
fn next_i(c: CardLink, len: usize) -> CardStep
    requires { len < 2 ^ 63 }
    ensures { lent_for c len result ≡ lent_for c len (card_next c CardPhase.Answering len) }
{
    if len < c.at {
        return silent(c, Told::Refused(Refusal::Room));
    }
    sends_i(c, !c.number, c.at + block::payload_max(c.reader), len)
}

// This and what calls it give the step of the rules as far as it goes with the answer that is lent.
fn takes_ack(c: CardLink, n: bool, len: usize) -> CardStep
    requires { len < 2 ^ 63 }
    ensures { lent_for c len result ≡ lent_for c len (card_takes_ack c n len) }
{
    if n == c.number {
        return sends(c);
    }
    match c.phase {
        CardPhase::Answering => next_i(c, len),
        _ => silent(c, Told::Quiet),
    }
}

fn takes_nak(c: CardLink, n: bool) -> CardStep
    ensures { result ≡ card_takes_nak c n }
{
    if n == c.number {
        return sends(c);
    }
    sends(CardLink {
        last: Block::Ack(c.number),
        ..c
    })
}

// A WTX answer.
fn granted(c: CardLink, w: u8) -> CardStep
    ensures { result ≡ card_granted c c.phase w }
{
    match c.phase {
        CardPhase::Waiting(v) if w == v => silent(owing(c, c.number), Told::Granted),
        _ => silent(c, Told::Quiet),
    }
}

fn deselected(c: CardLink) -> CardStep
    ensures { result ≡ card_rules c Block.Deselect 0 0 0 }
{
    CardStep {
        send: Block::Deselect,
        ..silent(open(c.own, c.reader), Told::Deselected)
    }
}

// What a card that owes nothing does with a block.
fn rules(c: CardLink, b: Block, bytes: usize, room: usize, len: usize) -> CardStep
    requires { len < 2 ^ 63 }
    ensures { lent_for c len result ≡ lent_for c len (card_rules c b bytes room len) }
{
    match b {
        Block::I(_, chained) => takes_i(c, chained, bytes, room),
        Block::Ack(n) => takes_ack(c, n, len),
        Block::Nak(n) => takes_nak(c, n),
        Block::Deselect => deselected(c),
        Block::Wtx(w) => granted(c, w),
        Block::Unknown | Block::Nothing => silent(c, Told::Quiet),
    }
}

pub fn owes_answer(phase: CardPhase) -> bool
    ensures { result ≡ owes phase }
{
    matches!(phase, CardPhase::Owing)
}

// A step as far as it goes with an answer of len bytes lent, from which an I is cut.
fn lent_for(c: CardLink, len: usize, step: CardStep) -> CardStep
    ensures { result ≡ lent_for c len step }
{
    if block::is_i(step.send) {
        if len < step.link.at {
            return silent(c, Told::Refused(Refusal::Room));
        }
        if limits::MESSAGE_MAX < len {
            return silent(c, Told::Refused(Refusal::TooLong));
        }
    }
    step
}

// What a card does with a block whose payload has so many bytes, with a buffer of room bytes and an answer of len bytes lent.
fn takes(c: CardLink, b: Block, bytes: usize, room: usize, len: usize) -> CardStep
    requires { len < 2 ^ 63 }
    ensures { result ≡ card_takes c b bytes room len }
{
    if owes_answer(c.phase) {
        return silent(c, Told::Refused(Refusal::NotDue));
    }
    lent_for(c, len, rules(c, b, bytes, room, len))
}

// The host's answer, of len bytes.
pub fn replies(c: CardLink, len: usize) -> CardStep
    ensures { result ≡ card_replies c len }
{
    if !owes_answer(c.phase) {
        silent(c, Told::Refused(Refusal::NotDue))
    } else if len > limits::MESSAGE_MAX {
        silent(c, Told::Refused(Refusal::TooLong))
    } else {
        sends_i(c, c.number, 0, len)
    }
}

// The host asks for WTX.
pub fn asks(c: CardLink, v: u8) -> CardStep
    ensures { result ≡ card_asks c v }
{
    if !owes_answer(c.phase) {
        silent(c, Told::Refused(Refusal::NotDue))
    } else if !block::wtx_ok(v) {
        silent(c, Told::Refused(Refusal::Argument))
    } else {
        sends(CardLink {
            phase: CardPhase::Waiting(v),
            last: Block::Wtx(v),
            joined: 0,
            at: 0,
            ..c
        })
    }
}

// What a card does with a frame's bytes, none where it is silence or damaged. An accepted payload goes straight behind those joined.
// Kept: its twin in reader_blocks differs in the link and in the rules that it calls: a trait over both would have to carry two contracts of other
// definitions.
pub fn hears(c: CardLink, bytes: &[u8], answer: &[u8], buffer: &mut [u8]) -> CardStep
    ensures value { result ≡ card_hears c bytes.now (length buffer.old) (length answer.now) }
    ensures buffer_after { buffer.new ≡ cond result.joins (overlay buffer.old c.joined (behind bytes.now)) buffer.old }
{
    let payload = block::behind(bytes);
    let step = takes(
        c,
        block::read_block(bytes),
        payload.len(),
        buffer.len(),
        answer.len(),
    );
    if step.joins {
        block::join(buffer, c.joined, payload);
    }
    step
}

// The bytes of the block that a step sends.
pub fn sent(step: CardStep, answer: &[u8]) -> BlockBytes
    ensures { result ≡ bytes_in (block_bytes step.send (part step.link.reader step.link.at answer.now)) }
{
    block::block_bytes(step.send, step.link.reader, step.link.at, answer)
}
