// The core as a library for C: include/lacrivosum.h declares each of these functions. State is kept in bytes that the caller lends. A call
// decodes them, makes the call of crate reader_link by value, and encodes what it leaves; nothing is written where that call is refused and the
// reader stays what it was. Every call is 1 on a state that is too short. `card_calls` has the card's, `sweeps` both sweeps, `type_b` those of
// Type B, `frames` what needs no state.
#![tactic(auto)]

pub mod card_calls;
pub mod delays;
pub mod frames;
pub mod fronts;
pub mod inquiries;
pub mod memories;
pub mod sweeps;
pub mod type_b;
pub mod wakes;

ghost use Rattle.std.specs.Prelude.{◌≡◌, true, false, ◌≤◌, length};
ghost use Rattle.crc.specs.Crc.{crc_a};
ghost use Rattle.reader_link.specs.ReaderCalls.{hear_call, start_call, wake_call, rats_call, send_call, deselect_call};
ghost use Rattle.kept.specs.Kept.{state_size, event_of, length_of};
ghost use Rattle.kept_reader.specs.KeptReader.{reader_of, kept_in, kept_after};
ghost use Rattle.lacrivosum.specs.Library.{done, left, reader_done, uid_done};

use refusal::Refusal;

// The reader hears a row, with its host's message and a message buffer lent; its next frame goes to out. 11: no row is due; 1.
#[unsafe(no_mangle)]
pub extern "C" fn lac_reader_hear(
    state: &mut [u8],
    row: &[u8],
    message: &[u8],
    buffer: &mut [u8],
    out: &mut [u8],
) -> usize
    ensures out_value { reader_done state.old out.old (hear_call (reader_of state.old) row.now message.now buffer.old (length out.old)) ≡ done result state.new out.new }
    ensures buffer_after { buffer.new ≡ left state.old buffer.old (hear_call (reader_of state.old) row.now message.now buffer.old (length out.old)).buffer }
    ensures state_after { state_size ≤ length state.old → kept_in state.new ≡ kept_after state.old (hear_call (reader_of state.old) row.now message.now buffer.old (length out.old)).turn }
{
    if state.len() < kept::STATE_SIZE {
        return kept::refused(Refusal::Room);
    }
    let x = kept_reader::reader_of(state);
    let t = reader_link::whole::hear(x, row, message, buffer, out);
    kept_reader::within::settle(x, t, state)
}

// Begins the selection of one card. 11: the reader is not new; 1.
// Kept: C calls it by this name.
#[unsafe(no_mangle)]
pub extern "C" fn lac_reader_select(state: &mut [u8], out: &mut [u8]) -> usize
    ensures out_value { reader_done state.old out.old (start_call false (reader_of state.old) (length out.old)) ≡ done result state.new out.new }
    ensures state_after { state_size ≤ length state.old → kept_in state.new ≡ kept_after state.old (start_call false (reader_of state.old) (length out.old)).turn }
{
    if state.len() < kept::STATE_SIZE {
        return kept::refused(Refusal::Room);
    }
    let x = kept_reader::reader_of(state);
    let t = reader_link::whole::select(x, out);
    kept_reader::within::settle(x, t, state)
}

// T-03: begins the selection of the one card with this UID. 11: the reader is not new; 1; 6: the bytes are no valid UID.
// Kept: C calls it by this name.
#[unsafe(no_mangle)]
pub extern "C" fn lac_reader_wake(state: &mut [u8], uid: &[u8], out: &mut [u8]) -> usize
    ensures out_value { reader_done state.old out.old (wake_call (reader_of state.old) uid.now (length out.old)) ≡ done result state.new out.new }
    ensures state_after { state_size ≤ length state.old → kept_in state.new ≡ kept_after state.old (wake_call (reader_of state.old) uid.now (length out.old)).turn }
{
    if state.len() < kept::STATE_SIZE {
        return kept::refused(Refusal::Room);
    }
    let x = kept_reader::reader_of(state);
    let t = reader_link::whole::wake(x, uid, out);
    kept_reader::within::settle(x, t, state)
}

// Begins the reader's part of a sweep. 11: the reader is not new; 1.
// Kept: C calls it by this name.
#[unsafe(no_mangle)]
pub extern "C" fn lac_reader_sweep(state: &mut [u8], out: &mut [u8]) -> usize
    ensures out_value { reader_done state.old out.old (start_call true (reader_of state.old) (length out.old)) ≡ done result state.new out.new }
    ensures state_after { state_size ≤ length state.old → kept_in state.new ≡ kept_after state.old (start_call true (reader_of state.old) (length out.old)).turn }
{
    if state.len() < kept::STATE_SIZE {
        return kept::refused(Refusal::Room);
    }
    let x = kept_reader::reader_of(state);
    let t = reader_link::whole::start_sweep(x, out);
    kept_reader::within::settle(x, t, state)
}

// Sends RATS with the reader's own size index. 11: no card is selected, or it has no blocks; 1; 6: the index is over 8.
// Kept: C calls it by this name.
#[unsafe(no_mangle)]
pub extern "C" fn lac_reader_rats(state: &mut [u8], index: u8, out: &mut [u8]) -> usize
    ensures out_value { reader_done state.old out.old (rats_call (reader_of state.old) index (length out.old)) ≡ done result state.new out.new }
    ensures state_after { state_size ≤ length state.old → kept_in state.new ≡ kept_after state.old (rats_call (reader_of state.old) index (length out.old)).turn }
{
    if state.len() < kept::STATE_SIZE {
        return kept::refused(Refusal::Room);
    }
    let x = kept_reader::reader_of(state);
    let t = reader_link::whole::rats(x, index, out);
    kept_reader::within::settle(x, t, state)
}

// Sends a message's first block. 11: the reader is not between messages; 1; 10: over 4,096 bytes.
// Kept: C calls it by this name.
#[unsafe(no_mangle)]
pub extern "C" fn lac_reader_send(state: &mut [u8], message: &[u8], out: &mut [u8]) -> usize
    ensures out_value { reader_done state.old out.old (send_call (reader_of state.old) message.now (length out.old)) ≡ done result state.new out.new }
    ensures state_after { state_size ≤ length state.old → kept_in state.new ≡ kept_after state.old (send_call (reader_of state.old) message.now (length out.old)).turn }
{
    if state.len() < kept::STATE_SIZE {
        return kept::refused(Refusal::Room);
    }
    let x = kept_reader::reader_of(state);
    let t = reader_link::whole::send(x, message, out);
    kept_reader::within::settle(x, t, state)
}

// Sends DESELECT. 11: the reader is not between messages; 1.
// Kept: C calls it by this name.
#[unsafe(no_mangle)]
pub extern "C" fn lac_reader_deselect(state: &mut [u8], out: &mut [u8]) -> usize
    ensures out_value { reader_done state.old out.old (deselect_call (reader_of state.old) (length out.old)) ≡ done result state.new out.new }
    ensures state_after { state_size ≤ length state.old → kept_in state.new ≡ kept_after state.old (deselect_call (reader_of state.old) (length out.old)).turn }
{
    if state.len() < kept::STATE_SIZE {
        return kept::refused(Refusal::Room);
    }
    let x = kept_reader::reader_of(state);
    let t = reader_link::whole::deselect(x, out);
    kept_reader::within::settle(x, t, state)
}

// The event that the last call told.
#[unsafe(no_mangle)]
pub extern "C" fn lac_event(state: &[u8]) -> u8
    ensures { result ≡ event_of state.now }
{
    kept::at(state, 45)
}

// What came with it: the length of a message, the card's size index, or the byte of a refusal.
#[unsafe(no_mangle)]
pub extern "C" fn lac_length(state: &[u8]) -> usize
    ensures { result ≡ length_of state.now }
{
    kept::number_at(state, 46)
}

// The last SAK of a reader's selection.
#[unsafe(no_mangle)]
pub extern "C" fn lac_reader_sak(state: &[u8]) -> u8
    ensures { result ≡ (reader_of state.now).reader.sak }
{
    kept::at(state, 20)
}

// The UID of a reader or a card, at the front of out, and how many bytes it has. 1: also where out has no room for the longest.
#[unsafe(no_mangle)]
pub extern "C" fn lac_uid(state: &[u8], out: &mut [u8]) -> usize
    ensures { uid_done state.now out.old ≡ done result state.now out.new }
{
    if state.len() < kept::STATE_SIZE {
        return kept::refused(Refusal::Room);
    }
    if out.len() < kept::UID_ROOM {
        return kept::refused(Refusal::Room);
    }
    kept::within::put_uid(kept::uid_of(state), out)
}

// CRC_A of bytes.
#[unsafe(no_mangle)]
pub extern "C" fn lac_crc_a(bytes: &[u8]) -> u16
    ensures { result ≡ crc_a bytes.now }
{
    crc::crc_a(bytes)
}
