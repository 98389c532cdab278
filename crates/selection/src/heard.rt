// What the reader makes of a received row, by the frame that it awaits. Tests stand in document 01's order.
ghost use Rattle.std.specs.Prelude.{◌≡◌, ◌<◌, ◌≤◌, take};
ghost use Rattle.rows.specs.Rows.{same};
ghost use Rattle.uid.specs.Uid.{level};
ghost use Rattle.frame.specs.Frame.{data_of};
ghost use Rattle.selection.specs.Level.{first_collided, level_says};
ghost use Rattle.selection.specs.Heard.{awaited, read_atqa, not_rest, rest_place, read_rest, read_sak};
ghost use Rattle.selection.specs.Says.{rest_says};
ghost use Rattle.refusal.specs.Refusal.{made_says, number_says};

use crate::{Rest, RestSays};
use refusal::Refusal;

// A row of n bits is awaited: silence is 7, and any other row 2.
fn awaited(row: &[u8], n: usize) -> Result<(), Refusal>
    ensures { result ≡ awaited n row.now }
{
    if row.len() == 0 {
        return Err(Refusal::Silence);
    }
    if row.len() != n {
        return Err(Refusal::Length);
    }
    Ok(())
}

// ATQA. A collided bit counts as 1, so it is enough that b1 to b5 are not all zeros.
pub fn read_atqa(row: &[u8]) -> Result<(), Refusal>
    ensures value { result ≡ read_atqa row.now }
    ensures result_value { made_says result ≡ made_says (read_atqa row.now) }
{
    awaited(row, 18)?;
    let p = frame::within::first_wrong(row, 0, 2);
    if p < 2 {
        return Err(Refusal::Parity(p as u8));
    }
    let none = [0u8; 5];
    if rows::is_same(&row[..5], &none) {
        return Err(Refusal::Forbidden);
    }
    Ok(())
}

// SAK and CRC_A.
pub fn read_sak(row: &[u8]) -> Result<u8, Refusal>
    ensures value { result ≡ read_sak row.now }
    ensures result_value { number_says result ≡ number_says (read_sak row.now) }
{
    awaited(row, 27)?;
    if !rows::is_clean(row) {
        return Err(Refusal::Collision);
    }
    let p = frame::within::first_wrong(row, 0, 3);
    if p < 3 {
        return Err(Refusal::Parity(p as u8));
    }
    let mut bytes = [0u8; 3];
    frame::within::bytes_of(row, 3, &mut bytes);
    if !crc::is_good(&bytes) {
        return Err(Refusal::Crc);
    }
    Ok(bytes[0])
}

fn not_rest(e: Refusal) -> Rest
    ensures { result ≡ not_rest e }
{
    Rest {
        says: RestSays::NotRest(e),
        five: [0u8; 5],
        known: 0,
    }
}

// Is the last of five bytes the B of the others?
fn is_checked(five: [u8; 5]) -> bool
    ensures { result ≡ same five (level (take 4 five)) }
{
    five[4] == uid::check_byte(five[0], five[1], five[2], five[3])
}

// The first byte of the level, from 0, that is whole in the answer and has no collided data bit but wrong parity; 5 where none is so. k of the
// level's bits were sent.
// Kept: how many bits of a level are known is a field of the reader, any byte; the test stands once, where the answer is read.
fn first_wrong(k: u8, w: [u8; 45]) -> usize
    requires { k < 40 }
    ensures { result ≡ rest_place k w }
{
    let i = (k as usize + 7) / 8;
    i + frame::within::first_wrong(&w, 9 * i, 5 - i)
}

// What a level's 45 bits say whose first collided data bit stands at p.
fn collided_level(k: u8, w: [u8; 45], d: [u8; 40], p: usize) -> Rest
    requires { (k < 40) × (d ≡ data_of 5 w) × (p ≡ first_collided d) × (p < 40) }
    ensures { result ≡ level_says k w }
{
    if 32 <= p {
        return not_rest(Refusal::Collision);
    }
    let b = first_wrong(k, w);
    if b < 5 {
        return not_rest(Refusal::Parity(b as u8));
    }
    let five = crate::level::five_bytes(crate::level::known_bits(d, p));
    Rest {
        says: RestSays::Collided,
        five: five,
        known: p as u8 + 1,
    }
}

// What a level's 45 bits say of whose data bits none collided.
fn whole_level(k: u8, w: [u8; 45], d: [u8; 40]) -> Rest
    requires { (k < 40) × (d ≡ data_of 5 w) × (40 ≤ first_collided d) }
    ensures { result ≡ level_says k w }
{
    let b = first_wrong(k, w);
    if b < 5 {
        return not_rest(Refusal::Parity(b as u8));
    }
    let five = crate::level::five_bytes(d);
    if !is_checked(five) {
        return not_rest(Refusal::Check);
    }
    Rest {
        says: RestSays::Whole,
        five: five,
        known: 40,
    }
}

// What a level's 45 bits say, of which the first k data bits were sent.
fn level_says(k: u8, w: [u8; 45]) -> Rest
    requires { k < 40 }
    ensures { result ≡ level_says k w }
{
    let d = crate::level::data_bits(w);
    let p = crate::level::first_collided(&d);
    if p < 40 {
        return collided_level(k, w, d, p);
    }
    whole_level(k, w, d)
}

// The answer to ANTICOLLISION, of which k bits of five were sent: the parity of the broken byte is never looked at.
pub fn read_rest(k: u8, five: [u8; 5], row: &[u8]) -> Rest
    ensures value { result ≡ read_rest k five row.now }
    ensures result_value { rest_says result ≡ rest_says (read_rest k five row.now) }
{
    if row.len() == 0 {
        return not_rest(Refusal::Silence);
    }
    let n = crate::numbers::cut(k);
    if row.len() != 45 - n {
        return not_rest(Refusal::Length);
    }
    let mut w = crate::sent::level_row(five);
    rows::within::put(&mut w, n, row);
    level_says(k, w)
}
