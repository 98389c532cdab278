// The whole card for C. A call decodes the card, makes the call of crate card_link by value, and encodes what it leaves; a refused call writes
// nothing. Every call is 1 on a state that is too short.
ghost use Rattle.std.specs.Prelude.{◌≡◌, [], ◌≤◌, length};
ghost use Rattle.card_link.specs.CardCalls.{owing, take_call, reply_call, ask_call, powered_on, powered_off, turn_of};
ghost use Rattle.kept.specs.Kept.{state_size, flag};
ghost use Rattle.kept_card.specs.KeptCard.{state_tag, card_in};
ghost use Rattle.kept_card.specs.KeptWhole.{link_card_of, kept_card_in, kept_card_after};
ghost use Rattle.lacrivosum.specs.Library.{done, left};
ghost use Rattle.lacrivosum.specs.CardLibrary.{card_done, speaks, new_call, quiet};

use block::Told;
use card_link::{CardTurn, LinkCard};
use refusal::Refusal;

// A number as C has it for true and false: 0 is false, any other true.
pub fn speaks(blocks: u8) -> bool
    ensures { result ≡ speaks blocks }
{
    blocks != 0
}

fn new_turn(x: LinkCard, uid: &[u8], blocks: u8, index: u8) -> CardTurn
    ensures { result ≡ turn_of (new_call x uid.now blocks index) }
{
    match card_link::whole::new_card(uid, speaks(blocks), index) {
        Ok(card) => quiet(card),
        Err(e) => CardTurn {
            card: x,
            bits: 0,
            told: Told::Refused(e),
        },
    }
}

fn quiet(x: LinkCard) -> CardTurn
    ensures { result ≡ turn_of (quiet x) }
{
    CardTurn {
        card: x,
        bits: 0,
        told: Told::Quiet,
    }
}

// A card without power, over whatever the state was; blocks is 0 for a card that does not speak them, else any number. 6: the bytes are no
// valid UID, or the size index is over 8; 1.
#[unsafe(no_mangle)]
pub extern "C" fn lac_card_new(state: &mut [u8], uid: &[u8], blocks: u8, index: u8) -> usize
    ensures index_value { card_done state.old [] (new_call (link_card_of state.old) uid.now blocks index) ≡ done result state.new [] }
    ensures state_after { state_size ≤ length state.old → kept_card_in state.new ≡ kept_card_after state.old (turn_of (new_call (link_card_of state.old) uid.now blocks index)) }
{
    if state.len() < kept::STATE_SIZE {
        return kept::refused(Refusal::Room);
    }
    let x = kept_card::whole::link_card_of(state);
    let t = new_turn(x, uid, blocks, index);
    kept_card::within::settle(t, state)
}

// Power comes: a card that was Off is Idle. 1.
// Kept: C calls it by this name.
#[unsafe(no_mangle)]
pub extern "C" fn lac_card_power_on(state: &mut [u8]) -> usize
    ensures state_value { card_done state.old [] (quiet (powered_on (link_card_of state.old))) ≡ done result state.new [] }
    ensures state_after { state_size ≤ length state.old → kept_card_in state.new ≡ kept_card_after state.old (turn_of (quiet (powered_on (link_card_of state.old)))) }
{
    if state.len() < kept::STATE_SIZE {
        return kept::refused(Refusal::Room);
    }
    let x = kept_card::whole::link_card_of(state);
    let t = quiet(card_link::whole::power_on(x));
    kept_card::within::settle(t, state)
}

// Power is lost: Off from anywhere. 1.
// Kept: C calls it by this name.
#[unsafe(no_mangle)]
pub extern "C" fn lac_card_power_off(state: &mut [u8]) -> usize
    ensures state_value { card_done state.old [] (quiet (powered_off (link_card_of state.old))) ≡ done result state.new [] }
    ensures state_after { state_size ≤ length state.old → kept_card_in state.new ≡ kept_card_after state.old (turn_of (quiet (powered_off (link_card_of state.old)))) }
{
    if state.len() < kept::STATE_SIZE {
        return kept::refused(Refusal::Room);
    }
    let x = kept_card::whole::link_card_of(state);
    let t = quiet(card_link::whole::power_off(x));
    kept_card::within::settle(t, state)
}

// The card takes a frame, with its host's answer and a message buffer lent; what it sends goes to out. 11: the card owes its host's answer; 1; 10.
#[unsafe(no_mangle)]
pub extern "C" fn lac_card_take(
    state: &mut [u8],
    row: &[u8],
    answer: &[u8],
    buffer: &mut [u8],
    out: &mut [u8],
) -> usize
    ensures out_value { card_done state.old out.old (take_call (link_card_of state.old) row.now answer.now buffer.old (length out.old)) ≡ done result state.new out.new }
    ensures buffer_after { buffer.new ≡ left state.old buffer.old (take_call (link_card_of state.old) row.now answer.now buffer.old (length out.old)).buffer }
    ensures state_after { state_size ≤ length state.old → kept_card_in state.new ≡ kept_card_after state.old (turn_of (take_call (link_card_of state.old) row.now answer.now buffer.old (length out.old))) }
{
    if state.len() < kept::STATE_SIZE {
        return kept::refused(Refusal::Room);
    }
    let x = kept_card::whole::link_card_of(state);
    let t = card_link::whole::take(x, row, answer, buffer, out);
    kept_card::within::settle(t, state)
}

// The host's answer to the message that was delivered: its first block. 11: none is owed; 1; 10: over 4,096 bytes.
// Kept: C calls it by this name.
#[unsafe(no_mangle)]
pub extern "C" fn lac_card_reply(state: &mut [u8], answer: &[u8], out: &mut [u8]) -> usize
    ensures out_value { card_done state.old out.old (reply_call (link_card_of state.old) answer.now (length out.old)) ≡ done result state.new out.new }
    ensures state_after { state_size ≤ length state.old → kept_card_in state.new ≡ kept_card_after state.old (turn_of (reply_call (link_card_of state.old) answer.now (length out.old))) }
{
    if state.len() < kept::STATE_SIZE {
        return kept::refused(Refusal::Room);
    }
    let x = kept_card::whole::link_card_of(state);
    let t = card_link::whole::reply(x, answer, out);
    kept_card::within::settle(t, state)
}

// The host asks for more time before its answer. 11: none is owed; 1; 6: WTXM is not 1 to 59.
// Kept: C calls it by this name.
#[unsafe(no_mangle)]
pub extern "C" fn lac_card_ask(state: &mut [u8], wtxm: u8, out: &mut [u8]) -> usize
    ensures out_value { card_done state.old out.old (ask_call (link_card_of state.old) wtxm (length out.old)) ≡ done result state.new out.new }
    ensures state_after { state_size ≤ length state.old → kept_card_in state.new ≡ kept_card_after state.old (turn_of (ask_call (link_card_of state.old) wtxm (length out.old))) }
{
    if state.len() < kept::STATE_SIZE {
        return kept::refused(Refusal::Room);
    }
    let x = kept_card::whole::link_card_of(state);
    let t = card_link::whole::ask(x, wtxm, out);
    kept_card::within::settle(t, state)
}

// 1 where the card owes its host's answer, else 0.
#[unsafe(no_mangle)]
pub extern "C" fn lac_card_owes(state: &[u8]) -> u8
    ensures { result ≡ flag (owing (link_card_of state.now)) }
{
    kept::flag(card_link::whole::is_owing(kept_card::whole::link_card_of(state)))
}

// Which state the card is in.
#[unsafe(no_mangle)]
pub extern "C" fn lac_card_state(state: &[u8]) -> u8
    ensures { result ≡ state_tag (card_in state.now).state }
{
    kept_card::state_tag(kept_card::card_of(state).state)
}
