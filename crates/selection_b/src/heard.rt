// What the reader makes of a row, by what it awaits.
ghost use Rattle.std.specs.Prelude.{◌≡◌, true, length};
ghost use Rattle.rows.specs.Rows.{clean};
ghost use Rattle.frame.specs.Frame.{bytes_of};
ghost use Rattle.frame_b.specs.FrameB.{without_crc_b};
ghost use Rattle.selection_b.specs.HeardB.{nobody, slot_of, read_slot, byte_of, read_byte, read_attrib, read_hltb};
ghost use Rattle.selection_b.specs.SaysB.{slot_says};
ghost use Rattle.refusal.specs.Refusal.{made_says, number_says};

use crate::{Held, SlotRead};
use refusal::Refusal;

fn nobody(says: Result<Held, Refusal>) -> SlotRead
    ensures { result ≡ nobody says }
{
    SlotRead {
        says,
        atqb: [0; 12],
    }
}

// A row of 112 bits, none of them collided.
fn slot_in(row: &[u8]) -> SlotRead
    requires { (length row.now ≡ 112) × (clean row.now ≡ true) }
    ensures { result ≡ slot_of (without_crc_b (bytes_of 14 row.now)) }
{
    let mut held = [0u8; 14];
    frame_b::within::bytes_of(row, 14, &mut held);
    if !crc::is_good_b(&held) {
        return nobody(Err(Refusal::Crc));
    }
    if held[0] != 0x50 {
        return nobody(Err(Refusal::Forbidden));
    }
    let mut atqb = [0u8; 12];
    rows::within::put(&mut atqb, 0, &held[..12]);
    SlotRead {
        says: Ok(Held::One),
        atqb,
    }
}

// What was heard in a slot.
pub fn read_slot(row: &[u8]) -> SlotRead
    ensures value { result ≡ read_slot row.now }
    ensures result_value { slot_says result ≡ slot_says (read_slot row.now) }
{
    if row.is_empty() {
        return nobody(Ok(Held::None));
    }
    if row.len() != 112 {
        return nobody(Err(Refusal::Length));
    }
    if !rows::is_clean(row) {
        return nobody(Ok(Held::More));
    }
    slot_in(row)
}

// A row of 24 bits, none of them collided.
fn byte_in(row: &[u8]) -> Result<u8, Refusal>
    requires { (length row.now ≡ 24) × (clean row.now ≡ true) }
    ensures { result ≡ byte_of (without_crc_b (bytes_of 3 row.now)) }
{
    let mut held = [0u8; 3];
    frame_b::within::bytes_of(row, 3, &mut held);
    if !crc::is_good_b(&held) {
        return Err(Refusal::Crc);
    }
    Ok(held[0])
}

// An answer of one byte and CRC_B.
fn read_byte(row: &[u8]) -> Result<u8, Refusal>
    ensures { result ≡ read_byte row.now }
{
    if row.is_empty() {
        return Err(Refusal::Silence);
    }
    if row.len() != 24 {
        return Err(Refusal::Length);
    }
    if !rows::is_clean(row) {
        return Err(Refusal::Collision);
    }
    byte_in(row)
}

// The answer to ATTRIB.
pub fn read_attrib(row: &[u8]) -> Result<u8, Refusal>
    ensures value { result ≡ read_attrib row.now }
    ensures result_value { number_says result ≡ number_says (read_attrib row.now) }
{
    let b = read_byte(row)?;
    if b % 16 != 0 {
        return Err(Refusal::Forbidden);
    }
    Ok(b / 16)
}

// The answer to HLTB.
pub fn read_hltb(row: &[u8]) -> Result<(), Refusal>
    ensures value { result ≡ read_hltb row.now }
    ensures result_value { made_says result ≡ made_says (read_hltb row.now) }
{
    let b = read_byte(row)?;
    if b != 0x00 {
        return Err(Refusal::Forbidden);
    }
    Ok(())
}
