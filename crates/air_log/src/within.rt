// Records and entries written at a place of lent bytes. Each has a condition, and its callers' proofs show that they meet it.
ghost use Rattle.std.specs.Prelude.{◌≡◌, true, ◌++◌, ◌+◌, ◌<◌, ◌≤◌, length, take, drop, get_or};
ghost use Rattle.rows.specs.Rows.{overlay, clean};
ghost use Rattle.uid.specs.Uid.{uid_bytes};
ghost use Rattle.air_log.specs.Log.{from_top, pack, header, tick_bytes, plain, sent_record, heard_record, entry_bytes};
ghost use Rattle.air_log.specs.Calls.{most_bits, row_size, kind_number, is_marks, shown_bit, shown};

use super::Kind;
use uid::Uid;

// What a row of a record shows: the bits, or where they collided.
#[derive(Clone, Copy, Debug, PartialEq, Eq)]
pub enum Part {
    Bits,
    Marks,
}

// What a record shows of a bit: in the row of marks a 1 if it collided; else the bit, 0 if it collided.
pub fn shown_bit(x: u8, part: Part) -> u8
    ensures { result ≡ shown_bit (is_marks part) x }
{
    match part {
        Part::Marks => { if x > 1 { 1 } else { 0 } }
        Part::Bits => { if x > 1 { 0 } else { x } }
    }
}

// What a record shows at a place of a row; 0 past its end, which fills the last byte.
pub fn bit(row: &[u8], i: usize, part: Part) -> u8
    ensures { result ≡ get_or (shown (is_marks part) row.now) i 0 }
{
    match row.get(i) {
        Some(&x) => shown_bit(x, part),
        None => 0,
    }
}

// Eight bits of a row from a place on, the first in the top bit.
pub fn packed_byte(row: &[u8], from: usize, part: Part) -> u8
    requires { from < length row.now }
    ensures { result ≡ from_top 8 (take 8 (drop from (shown (is_marks part) row.now))) }
{
    let mut v: u8 = 0;
    // Kept: eight bits are taken even where the row ends before them; an iterator over the row needs a second step that fills.
    for j in 0..8usize {
        v = 2 * v + bit(row, from + j, part);
    }
    v
}

// A row, zero-filled to a byte, written into out from index at on.
pub fn put_packed(out: &mut [u8], at: usize, row: &[u8], part: Part)
    requires { at + row_size (length row.now) ≤ length out.old }
    ensures { out.new ≡ overlay out.old at (pack (shown (is_marks part) row.now)) }
{
    let n = (row.len() + 7) / 8;
    for k in 0..n {
        out[at + k] = packed_byte(row, 8 * k, part);
    }
}

// A record's first six bytes: its header and its tick, of which the low 32 bits count.
pub fn head_of(kind: Kind, n: usize, tick: usize) -> [u8; 6]
    requires { n ≤ most_bits }
    ensures { result ≡ header (kind_number kind) n ++ tick_bytes tick }
{
    let [high, low] = (n as u16).to_be_bytes();
    let [a, b, c, d] = ((tick % 4294967296) as u32).to_be_bytes();
    [64 * u8::from(kind) + high, low, a, b, c, d]
}

// A header, its tick and one row. The answer is their number of bytes.
pub fn put_row(out: &mut [u8], at: usize, tick: usize, kind: Kind, row: &[u8]) -> usize
    requires { (length row.now ≤ most_bits) × (at + (6 + row_size (length row.now)) ≤ length out.old) }
    ensures value { result ≡ 6 + row_size (length row.now) }
    ensures out_after { out.new ≡ overlay out.old at (header (kind_number kind) (length row.now) ++ (tick_bytes tick ++ pack (plain row.now))) }
{
    rows::within::put(out, at, &head_of(kind, row.len(), tick));
    put_packed(out, at + 6, row, Part::Bits);
    6 + (row.len() + 7) / 8
}

// The record of a reader frame. The answer is its number of bytes.
pub fn put_sent(out: &mut [u8], at: usize, tick: usize, frame: &[u8]) -> usize
    requires { (clean frame.now ≡ true) × (length frame.now ≤ most_bits) × (at + length (sent_record (tick_bytes tick) frame.now) ≤ length out.old) }
    ensures value { result ≡ length (sent_record (tick_bytes tick) frame.now) }
    ensures out_after { out.new ≡ overlay out.old at (sent_record (tick_bytes tick) frame.now) }
{
    put_row(out, at, tick, Kind::Sent, frame)
}

// The record of what was heard after a reader frame. The answer is its number of bytes.
pub fn put_heard(out: &mut [u8], at: usize, tick: usize, row: &[u8]) -> usize
    requires { (length row.now ≤ most_bits) × (at + length (heard_record (tick_bytes tick) row.now) ≤ length out.old) }
    ensures value { result ≡ length (heard_record (tick_bytes tick) row.now) }
    ensures out_after { out.new ≡ overlay out.old at (heard_record (tick_bytes tick) row.now) }
{
    if row.is_empty() {
        return put_row(out, at, tick, Kind::Silence, row);
    }
    if rows::is_clean(row) {
        return put_row(out, at, tick, Kind::Clean, row);
    }
    let first = put_row(out, at, tick, Kind::Collided, row);
    put_packed(out, at + first, row, Part::Marks);
    first + (row.len() + 7) / 8
}

// The found list's entry of a UID.
pub fn put_entry(list: &mut [u8], at: usize, u: Uid)
    requires { at + 11 ≤ length list.old }
    ensures { list.new ≡ overlay list.old at (entry_bytes (uid_bytes u)) }
{
    rows::within::put(list, at, &super::entry(u));
}
