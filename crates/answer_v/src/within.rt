// How a row is read. Called by our own crates only.
ghost use Rattle.std.specs.Prelude.{◌≡◌, true, ◌&&◌, ◌+◌, ◌%◌, ◌≤◌, length, take, drop, eqb, leb};
ghost use Rattle.parity.specs.Bits.{unbits};
ghost use Rattle.rows.specs.Rows.{clean};
ghost use Rattle.answer_v.specs.Heard.{nobody, collided, fits, slot_in, is_code, is_data, fitting, is_length, value_of, answer_in};

use crate::{AnswerSays, Awaited, SlotV, Turn};
use refusal::Refusal;
use selection_b::Held;

pub fn nobody(s: Result<Held, Refusal>) -> SlotV
    ensures { result ≡ nobody s }
{
    SlotV {
        says: s,
        dsfid: 0,
        uid: [0; 8],
    }
}

pub fn collided(deep: bool) -> SlotV
    ensures { result ≡ collided deep }
{
    if deep {
        nobody(Err(Refusal::Forbidden))
    } else {
        nobody(Ok(Held::More))
    }
}

// Does the slot's number stand above the mask of a UID?
#[tactic(auto, using(std::proofs::lemmas::Bool::Decides::nat_tests))]
fn is_in_slot(k: Turn, row: &[u8]) -> bool
    requires { (length row.now ≡ 96) × (clean row.now ≡ true) }
    ensures { result ≡ (leb k.len 60 && eqb (unbits (take 4 (drop (16 + k.len) row.now))) k.slot) }
{
    if k.len > 60 {
        return false;
    }
    let at = 16 + k.len as usize;
    parity::within::number_of(&row[at..at + 4]) == k.slot
}

// Is the UID in a row of 96 bits that of a tag which answers in this slot?
#[tactic(auto, using(std::proofs::lemmas::Bool::Decides::nat_tests), unfolding(crate::specs::Heard::fits))]
fn is_fitting(k: Turn, row: &[u8]) -> bool
    requires { (length row.now ≡ 96) × (clean row.now ≡ true) }
    ensures { result ≡ fits k row.now }
{
    k.len <= 64
        && request_v::within::is_matching(k.mask, row, 16, k.len as usize)
        && (k.one || is_in_slot(k, row))
}

// A row of 96 bits, none of them collided.
#[tactic(auto, using(std::proofs::lemmas::Bool::Decides::nat_tests), unfolding(crate::specs::Heard::slot_in))]
pub fn slot_in(k: Turn, row: &[u8]) -> SlotV
    requires { (length row.now ≡ 96) × (clean row.now ≡ true) }
    ensures { result ≡ slot_in k row.now }
{
    if !frame_v::within::is_good(row) {
        return nobody(Err(Refusal::Crc));
    }
    let flags = parity::within::byte_at(row, 0);
    let dsfid = parity::within::byte_at(row, 8);
    if flags != 0x00 || !is_fitting(k, row) {
        return nobody(Err(Refusal::Forbidden));
    }
    let mut uid = [0u8; 8];
    frame_b::within::bytes_of(&row[16..], 8, &mut uid);
    SlotV {
        says: Ok(Held::One),
        dsfid,
        uid,
    }
}

// ---- another answer

#[tactic(auto, using(std::proofs::lemmas::Bool::Decides::nat_tests), unfolding(crate::specs::Heard::is_code))]
fn is_code(e: u8) -> bool
    ensures { result ≡ is_code e }
{
    matches!(e, 0x01..=0x03 | 0x0F..=0x14 | 0xA0..=0xDF)
}

#[tactic(auto, using(std::proofs::lemmas::Bool::Decides::nat_tests), unfolding(crate::specs::Heard::is_data))]
fn is_data(k: Awaited, n: usize) -> bool
    ensures { result ≡ is_data k.count k.status n }
{
    let blocks = k.count as usize + 1;
    let size = n / blocks;
    let fits = if k.status {
        2 <= size && size <= 33
    } else {
        1 <= size && size <= 32
    };
    n % blocks == 0 && fits
}

fn is_fit(k: Awaited, n: usize) -> bool
    ensures { result ≡ fitting k.reads k.count k.status n }
{
    if k.reads { is_data(k, n) } else { n == 0 }
}

#[tactic(auto, using(std::proofs::lemmas::Bool::Decides::nat_tests), unfolding(crate::specs::Heard::is_length))]
pub fn is_length(k: Awaited, n: usize) -> bool
    ensures { result ≡ is_length k.reads k.count k.status n }
{
    n == 32 || n % 8 == 0 && 24 <= n && is_fit(k, n / 8 - 3)
}

#[tactic(auto, using(std::proofs::lemmas::Bool::Decides::nat_tests), unfolding(crate::specs::Heard::value_of))]
fn value_of(k: Awaited, flags: u8, code: u8, n: usize) -> AnswerSays
    ensures { result ≡ value_of k.reads k.count k.status flags code n }
{
    if flags == 0x00 && is_fit(k, n) {
        AnswerSays::Good(n)
    } else if flags == 0x01 && n == 1 && is_code(code) {
        AnswerSays::Fails(code)
    } else {
        AnswerSays::NotGood(Refusal::Forbidden)
    }
}

// A row of whole bytes, three at least, none of its bits collided.
#[tactic(auto, using(std::proofs::lemmas::Bool::Decides::nat_tests), unfolding(crate::specs::Heard::answer_in))]
pub fn answer_in(k: Awaited, row: &[u8]) -> AnswerSays
    requires { (length row.now % 8 ≡ 0) × (24 ≤ length row.now) × (clean row.now ≡ true) }
    ensures { result ≡ answer_in k.reads k.count k.status row.now }
{
    if !frame_v::within::is_good(row) {
        return AnswerSays::NotGood(Refusal::Crc);
    }
    let flags = parity::within::byte_at(row, 0);
    let code = parity::within::byte_at(row, 8);
    value_of(k, flags, code, row.len() / 8 - 3)
}
