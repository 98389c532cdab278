// The whole card, every state: outside Protocol the rules of crate card, in Protocol the block rules. Rows in, rows out.
ghost use Rattle.std.specs.Prelude.{◌≡◌, cond, [], ◌≤◌, length};
ghost use Rattle.limits.specs.Limits.{row_room};
ghost use Rattle.rows.specs.Rows.{overlay};
ghost use Rattle.frame.specs.Calls.{good_bytes};
ghost use Rattle.block.specs.Block.{behind};
ghost use Rattle.block.specs.Row.{heard_row};
ghost use Rattle.block.specs.Says.{told_says};
ghost use Rattle.card.specs.Calls.{new_card, new_card_says};
ghost use Rattle.card_blocks.specs.CardFrames.{card_hears, card_out};
ghost use Rattle.card_link.specs.CardCalls.{no_link, without_link, link_in, left_by, with_row, takes_outside, takes_inside, takes_in, owing, declined, take_call, reply_call, ask_call, powered_on, powered_off, turn_of};
ghost use Rattle.card_link.specs.CardSays.{take_says, reply_says, ask_says};
ghost use Rattle.refusal.specs.Refusal.{made_says};

use crate::{CardTurn, LinkCard};
use block::Told;
use card::{Card, CardState};
use card_blocks::{CardLink, CardStep};
use refusal::Refusal;

// The link of a card outside Protocol.
fn no_link() -> CardLink
    ensures { result ≡ no_link }
{
    card_blocks::open(0, 0)
}

// A card without power. 6: the UID is not valid, or the size index is over 8.
pub fn new_card(bytes: &[u8], blocks: bool, index: u8) -> Result<LinkCard, Refusal>
    ensures value { result ≡ without_link (new_card bytes.now blocks index) }
    ensures made_value { made_says result ≡ new_card_says bytes.now index }
{
    let card = card::new_card(bytes, blocks, index)?;
    Ok(LinkCard {
        card,
        link: no_link(),
    })
}

// Power comes: a card that was Off is Idle.
pub fn power_on(x: LinkCard) -> LinkCard
    ensures { result ≡ powered_on x }
{
    LinkCard {
        card: card::power_on(x.card),
        ..x
    }
}

// Power is lost: Off from anywhere, and no link.
pub fn power_off(x: LinkCard) -> LinkCard
    ensures { result ≡ powered_off x }
{
    LinkCard {
        card: card::power_off(x.card),
        link: no_link(),
    }
}

// Does the card owe its host's answer?
pub fn is_owing(x: LinkCard) -> bool
    ensures { result ≡ owing x }
{
    matches!(x.card.state, CardState::Protocol(_)) && card_blocks::owes_answer(x.link.phase)
}

// Declined: nothing is sent and nothing changes.
fn declines(x: LinkCard, e: Refusal) -> CardTurn
    ensures { result ≡ turn_of (declined x [] e) }
{
    CardTurn {
        card: x,
        bits: 0,
        told: Told::Refused(e),
    }
}

// The link of a card that a frame has led to this state from outside Protocol.
fn link_in(c: Card, s: CardState) -> CardLink
    ensures { result ≡ link_in c s }
{
    match s {
        CardState::Protocol(i) => card_blocks::open(c.index, i),
        _ => no_link(),
    }
}

fn halted(c: Card) -> LinkCard
    ensures { result ≡ left_by Told.Deselected c no_link }
{
    LinkCard {
        card: Card {
            state: CardState::Halt,
            ..c
        },
        link: no_link(),
    }
}

// The card by the link's news: DESELECT leads to Halt.
fn left_by(told: Told, card: Card, link: CardLink) -> LinkCard
    ensures { result ≡ left_by told card link }
{
    match told {
        Told::Deselected => halted(card),
        _ => LinkCard { card, link },
    }
}

// What a card does with a row.
fn hear_row(c: CardLink, row: &[u8], answer: &[u8], buffer: &mut [u8]) -> CardStep
    ensures value { result ≡ card_hears c (good_bytes (heard_row c.own row.now)) (length buffer.old) (length answer.now) }
    ensures buffer_after { buffer.new ≡ cond result.joins (overlay buffer.old c.joined (behind (good_bytes (heard_row c.own row.now)))) buffer.old }
{
    let mut bytes = [0u8; 256];
    let n = block::within::read_row(c.own, row, &mut bytes);
    card_blocks::hears(c, &bytes[..n], answer, buffer)
}

// A step of the link handed back, and its block at the front of the lent row.
fn finish(card: Card, step: CardStep, answer: &[u8], out: &mut [u8]) -> CardTurn
    requires { row_room ≤ length out.old }
    ensures value { result ≡ turn_of (with_row card (card_out step answer.now [] 0 [])) }
    ensures out_after { out.new ≡ overlay out.old 0 (with_row card (card_out step answer.now [] 0 [])).sent }
{
    CardTurn {
        card: left_by(step.told, card, step.link),
        bits: block::within::put_block(card_blocks::sent(step, answer), out),
        told: step.told,
    }
}

// A frame outside Protocol.
fn take_outside(x: LinkCard, row: &[u8], out: &mut [u8]) -> CardTurn
    requires { row_room ≤ length out.old }
    ensures value { result ≡ turn_of (takes_outside x row.now []) }
    ensures out_after { out.new ≡ overlay out.old 0 (takes_outside x row.now []).sent }
{
    let t = card::within::take_rules(x.card, row, out);
    CardTurn {
        card: LinkCard {
            card: t.card,
            link: link_in(x.card, t.card.state),
        },
        bits: card::within::bits_in(t.answer),
        told: Told::Quiet,
    }
}

// .. in Protocol.
fn take_inside(
    x: LinkCard,
    row: &[u8],
    answer: &[u8],
    buffer: &mut [u8],
    out: &mut [u8],
) -> CardTurn
    requires { row_room ≤ length out.old }
    ensures value { result ≡ turn_of (takes_inside x row.now answer.now buffer.old) }
    ensures buffer_after { buffer.new ≡ (takes_inside x row.now answer.now buffer.old).buffer }
    ensures out_after { out.new ≡ overlay out.old 0 (takes_inside x row.now answer.now buffer.old).sent }
{
    let step = hear_row(x.link, row, answer, buffer);
    finish(x.card, step, answer, out)
}

// A frame that a card takes, by its state.
fn take_due(x: LinkCard, row: &[u8], answer: &[u8], buffer: &mut [u8], out: &mut [u8]) -> CardTurn
    requires { row_room ≤ length out.old }
    ensures value { result ≡ turn_of (takes_in x.card.state x row.now answer.now buffer.old) }
    ensures buffer_after { buffer.new ≡ (takes_in x.card.state x row.now answer.now buffer.old).buffer }
    ensures out_after { out.new ≡ overlay out.old 0 (takes_in x.card.state x row.now answer.now buffer.old).sent }
{
    match x.card.state {
        CardState::Protocol(_) => take_inside(x, row, answer, buffer, out),
        _ => take_outside(x, row, out),
    }
}

// The card takes a frame, any row of any length, with its host's answer and a message buffer lent. What it sends stands at the front of the
// lent row, which has room for the longest frame. 11: the card owes its host's answer.
// Kept: three rows are lent beside the frame, as C lends them (`lac_card_take`), and each clause speaks of one of them by its name.
pub fn take(x: LinkCard, row: &[u8], answer: &[u8], buffer: &mut [u8], out: &mut [u8]) -> CardTurn
    ensures value { result ≡ turn_of (take_call x row.now answer.now buffer.old (length out.old)) }
    ensures buffer_after { buffer.new ≡ (take_call x row.now answer.now buffer.old (length out.old)).buffer }
    ensures out_after { out.new ≡ overlay out.old 0 (take_call x row.now answer.now buffer.old (length out.old)).sent }
    ensures told_value { told_says result.told ≡ take_says x row.now answer.now buffer.old (length out.old) }
{
    if let Err(e) = block::within::tested(!is_owing(x), out.len()) {
        return declines(x, e);
    }
    take_due(x, row, answer, buffer, out)
}

// The host's answer to the message that was delivered. 10: it is over 4,096 bytes.
pub fn reply(x: LinkCard, answer: &[u8], out: &mut [u8]) -> CardTurn
    ensures value { result ≡ turn_of (reply_call x answer.now (length out.old)) }
    ensures out_after { out.new ≡ overlay out.old 0 (reply_call x answer.now (length out.old)).sent }
    ensures told_value { told_says result.told ≡ reply_says x answer.now (length out.old) }
{
    if let Err(e) = block::within::tested(is_owing(x), out.len()) {
        return declines(x, e);
    }
    finish(
        x.card,
        card_blocks::replies(x.link, answer.len()),
        answer,
        out,
    )
}

// The host asks for WTX before its answer. 6: the value is not 1 to 59.
pub fn ask(x: LinkCard, wtx: u8, out: &mut [u8]) -> CardTurn
    ensures value { result ≡ turn_of (ask_call x wtx (length out.old)) }
    ensures out_after { out.new ≡ overlay out.old 0 (ask_call x wtx (length out.old)).sent }
    ensures told_value { told_says result.told ≡ ask_says x wtx (length out.old) }
{
    if let Err(e) = block::within::tested(is_owing(x), out.len()) {
        return declines(x, e);
    }
    finish(x.card, card_blocks::asks(x.link, wtx), &[], out)
}
