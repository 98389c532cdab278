// Type B (T-05) for C: reader and card, with state in bytes that the caller lends. A call decodes them, makes the call of crate reader_b or card_b
// by value, and encodes what it leaves; nothing is written where a call is refused and the end stays what it was. Every call is 1 on a state that is
// too short.
ghost use Rattle.std.specs.Prelude.{◌≡◌, [], ◌≤◌, length};
ghost use Rattle.selection_b.specs.TypeB.{request, attrib_for, hltb};
ghost use Rattle.reader_b.specs.ReaderB.{next, row_after};
ghost use Rattle.card_b.specs.CardB.{power_on, power_off};
ghost use Rattle.card_b.specs.CallsB.{take_call, take_row};
ghost use Rattle.kept.specs.Kept.{state_size};
ghost use Rattle.kept_b.specs.KeptReaderB.{reader_in, held_in, kept_in, kept_after};
ghost use Rattle.kept_b.specs.KeptCardB.{state_tag, card_in};
ghost use Rattle.lacrivosum.specs.Library.{done};
ghost use Rattle.lacrivosum.specs.CardLibrary.{speaks};
ghost use Rattle.lacrivosum.specs.LibraryB.{reader_bdone, unfit, due, request_call, halt_call, attach_call, hear_call, atqb_done, card_bdone, silent, unmade, new_call};

use card_b::{CardB, StateB, TakenB};
use reader_b::{AnswerB, ReaderB, TurnB};
use refusal::Refusal;

// A call with an argument that is refused: 11, 1, 6.
fn refuse(x: ReaderB, room: usize) -> TurnB
    ensures { result ≡ due x room (unfit x) }
{
    if !reader_b::within::is_ready(x.phase) {
        return reader_b::within::turn(x, AnswerB::Declines(Refusal::NotDue));
    }
    if room < frame_b::FRAME_ROOM {
        return reader_b::within::turn(x, AnswerB::Declines(Refusal::Room));
    }
    reader_b::within::turn(x, AnswerB::Declines(Refusal::Argument))
}

fn halt(x: ReaderB, pupi: &[u8], out: &mut [u8]) -> TurnB
    ensures value { result ≡ halt_call x pupi.now (length out.old) }
    ensures out_after { out.new ≡ row_after result.answer (hltb pupi.now) out.old }
{
    if pupi.len() != 4 {
        return refuse(x, out.len());
    }
    reader_b::halt(x, kept::bytes_at(pupi, 0), out)
}

fn attach(x: ReaderB, atqb: &[u8], index: u8, out: &mut [u8]) -> TurnB
    ensures value { result ≡ attach_call x atqb.now index (length out.old) }
    ensures out_after { out.new ≡ row_after result.answer (attrib_for atqb.now index) out.old }
{
    if atqb.len() != kept_b::ATQB_ROOM {
        return refuse(x, out.len());
    }
    reader_b::attach(x, kept::bytes_at(atqb, 0), index, out)
}

// REQB, or WUPB where wake is not 0, with n slots. 11: the reader is not ready; 1; 6: n is not 1, 2, 4, 8 or 16.
#[unsafe(no_mangle)]
pub extern "C" fn lac_b_reader_request(
    state: &mut [u8],
    wake: u8,
    n: u8,
    afi: u8,
    out: &mut [u8],
) -> usize
    ensures afi_value { reader_bdone state.old out.old (request_call (reader_in state.old) wake n afi (length out.old)) (request (speaks wake) n afi) ≡ done result state.new out.new }
    ensures state_after { state_size ≤ length state.old → kept_in state.new ≡ kept_after state.old (request_call (reader_in state.old) wake n afi (length out.old)) }
{
    if state.len() < kept::STATE_SIZE {
        return kept::refused(Refusal::Room);
    }
    let x = kept_b::reader_of(state);
    let t = reader_b::request(x, crate::card_calls::speaks(wake), n, afi, out);
    kept_b::within::settle(x, t, state)
}

// HLTB to the card with this PUPI. 11: the reader is not ready; 1; 6: the PUPI is not four bytes.
#[unsafe(no_mangle)]
pub extern "C" fn lac_b_reader_halt(state: &mut [u8], pupi: &[u8], out: &mut [u8]) -> usize
    ensures pupi_value { reader_bdone state.old out.old (halt_call (reader_in state.old) pupi.now (length out.old)) (hltb pupi.now) ≡ done result state.new out.new }
    ensures state_after { state_size ≤ length state.old → kept_in state.new ≡ kept_after state.old (halt_call (reader_in state.old) pupi.now (length out.old)) }
{
    if state.len() < kept::STATE_SIZE {
        return kept::refused(Refusal::Room);
    }
    let x = kept_b::reader_of(state);
    let t = halt(x, pupi, out);
    kept_b::within::settle(x, t, state)
}

// ATTRIB to the card of an ATQB, with the reader's own size index. 11: the reader is not ready; 1; 6: the ATQB is not twelve bytes, or the index is
// over 8.
#[unsafe(no_mangle)]
pub extern "C" fn lac_b_reader_attach(
    state: &mut [u8],
    atqb: &[u8],
    index: u8,
    out: &mut [u8],
) -> usize
    ensures index_value { reader_bdone state.old out.old (attach_call (reader_in state.old) atqb.now index (length out.old)) (attrib_for atqb.now index) ≡ done result state.new out.new }
    ensures state_after { state_size ≤ length state.old → kept_in state.new ≡ kept_after state.old (attach_call (reader_in state.old) atqb.now index (length out.old)) }
{
    if state.len() < kept::STATE_SIZE {
        return kept::refused(Refusal::Room);
    }
    let x = kept_b::reader_of(state);
    let t = attach(x, atqb, index, out);
    kept_b::within::settle(x, t, state)
}

// The reader hears a row; the next slot's marker, if one goes out, goes to out. 11: no row is due; 1; and what is wrong with the row.
#[unsafe(no_mangle)]
pub extern "C" fn lac_b_reader_hear(state: &mut [u8], row: &[u8], out: &mut [u8]) -> usize
    ensures out_value { reader_bdone state.old out.old (hear_call (reader_in state.old) row.now (length out.old)) (next (hear_call (reader_in state.old) row.now (length out.old)).reader) ≡ done result state.new out.new }
    ensures state_after { state_size ≤ length state.old → kept_in state.new ≡ kept_after state.old (hear_call (reader_in state.old) row.now (length out.old)) }
{
    if state.len() < kept::STATE_SIZE {
        return kept::refused(Refusal::Room);
    }
    let x = kept_b::reader_of(state);
    let t = reader_b::hear(x, row, out);
    kept_b::within::settle(x, t, state)
}

// What the slot of the last answer held: 0, 1 or 2 for none, one, more.
#[unsafe(no_mangle)]
pub extern "C" fn lac_b_held(state: &[u8]) -> u8
    ensures { result ≡ held_in state.now }
{
    kept_b::held_of(state)
}

// .. and the one's ATQB without CRC_B, its twelve bytes in front of out. 1: out is too short.
#[unsafe(no_mangle)]
pub extern "C" fn lac_b_atqb(state: &[u8], out: &mut [u8]) -> usize
    ensures { atqb_done state.now out.old ≡ done result state.now out.new }
{
    if state.len() < kept::STATE_SIZE {
        return kept::refused(Refusal::Room);
    }
    if out.len() < kept_b::ATQB_ROOM {
        return kept::refused(Refusal::Room);
    }
    let q: [u8; 12] = kept::bytes_at(state, 4);
    rows::within::put(out, 0, &q);
    12
}

fn silent(c: CardB) -> TakenB
    ensures { result ≡ silent c }
{
    TakenB {
        card: c,
        answer: Ok(None),
    }
}

// No new card: the one that was there stays.
fn unmade(x: CardB) -> TakenB
    ensures { result ≡ unmade x }
{
    TakenB {
        card: x,
        answer: Err(Refusal::Argument),
    }
}

fn new_card(
    x: CardB,
    pupi: &[u8],
    afi: u8,
    markers: u8,
    application: &[u8],
    protocol: &[u8],
) -> TakenB
    ensures { result ≡ new_call x pupi.now afi markers application.now protocol.now }
{
    if pupi.len() != 4 {
        return unmade(x);
    }
    if application.len() != 4 {
        return unmade(x);
    }
    if protocol.len() != 3 {
        return unmade(x);
    }
    silent(CardB {
        pupi: kept::bytes_at(pupi, 0),
        afi,
        markers: crate::card_calls::speaks(markers),
        application: kept::bytes_at(application, 0),
        protocol: kept::bytes_at(protocol, 0),
        state: StateB::Off,
    })
}

// A card without power, over whatever the state was; markers is 0 for a card that does not answer slot markers, else any number. 6: not four bytes
// of PUPI, four of application data or three of protocol information; 1.
#[unsafe(no_mangle)]
pub extern "C" fn lac_b_card_new(
    state: &mut [u8],
    pupi: &[u8],
    afi: u8,
    markers: u8,
    application: &[u8],
    protocol: &[u8],
) -> usize
    ensures protocol_value { card_bdone state.old [] (new_call (card_in state.old) pupi.now afi markers application.now protocol.now) [] ≡ done result state.new [] }
    ensures state_after { state_size ≤ length state.old → card_in state.new ≡ (new_call (card_in state.old) pupi.now afi markers application.now protocol.now).card }
{
    if state.len() < kept::STATE_SIZE {
        return kept::refused(Refusal::Room);
    }
    let x = kept_b::card::card_of(state);
    let t = new_card(x, pupi, afi, markers, application, protocol);
    kept_b::within::settle_card(t, state)
}

// Power comes: a card that was Off is Idle. 1.
// Kept: C calls it by this name.
#[unsafe(no_mangle)]
pub extern "C" fn lac_b_card_power_on(state: &mut [u8]) -> usize
    ensures state_value { card_bdone state.old [] (silent (power_on (card_in state.old))) [] ≡ done result state.new [] }
    ensures state_after { state_size ≤ length state.old → card_in state.new ≡ power_on (card_in state.old) }
{
    if state.len() < kept::STATE_SIZE {
        return kept::refused(Refusal::Room);
    }
    let x = kept_b::card::card_of(state);
    let t = silent(card_b::power_on(x));
    kept_b::within::settle_card(t, state)
}

// Power is lost: Off from anywhere. 1.
// Kept: C calls it by this name.
#[unsafe(no_mangle)]
pub extern "C" fn lac_b_card_power_off(state: &mut [u8]) -> usize
    ensures state_value { card_bdone state.old [] (silent (power_off (card_in state.old))) [] ≡ done result state.new [] }
    ensures state_after { state_size ≤ length state.old → card_in state.new ≡ power_off (card_in state.old) }
{
    if state.len() < kept::STATE_SIZE {
        return kept::refused(Refusal::Room);
    }
    let x = kept_b::card::card_of(state);
    let t = silent(card_b::power_off(x));
    kept_b::within::settle_card(t, state)
}

// The card takes a row, with the slot number that its host drew; what it sends goes to out. 1; 6: the row is a request and the number is not 1 to
// its N.
#[unsafe(no_mangle)]
pub extern "C" fn lac_b_card_take(state: &mut [u8], number: u8, row: &[u8], out: &mut [u8]) -> usize
    ensures out_value { card_bdone state.old out.old (take_call (card_in state.old) number row.now (length out.old)) (take_row (card_in state.old) number row.now out.old) ≡ done result state.new out.new }
    ensures state_after { state_size ≤ length state.old → card_in state.new ≡ (take_call (card_in state.old) number row.now (length out.old)).card }
{
    if state.len() < kept::STATE_SIZE {
        return kept::refused(Refusal::Room);
    }
    let x = kept_b::card::card_of(state);
    let t = card_b::take(x, number, row, out);
    kept_b::within::settle_card(t, state)
}

// Which state the card is in.
#[unsafe(no_mangle)]
pub extern "C" fn lac_b_card_state(state: &[u8]) -> u8
    ensures { result ≡ state_tag (card_in state.now).state }
{
    kept_b::card::state_tag(kept_b::card::card_of(state).state)
}
