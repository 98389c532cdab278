// Records read: the bits of bytes, the tests on rows, and the record behind a header. Some have a condition, and their callers' proofs
// show that they meet it; only the crates of this repository call them.
ghost use Rattle.std.specs.Prelude.{◌≡◌, ◌+◌, ◌-◌, ◌*◌, ◌≤◌, length, take, drop, get_or};
ghost use Rattle.air_log.specs.Calls.{most_bits, row_size, kind_number};
ghost use Rattle.air_log.specs.Reading.{top_bits, bits_from, row_at, zeros, clash, apart, good_row, good_marks, kind_of, rows_size, collided_of, record_of, after_header};

use super::{Kind, Record};

// A byte of the log; 0 past its end.
pub fn byte_at(log: &[u8], i: usize) -> u8
    ensures { result ≡ get_or log.now i 0 }
{
    log.get(i).copied().unwrap_or(0)
}

// The bits of a byte, the top one first.
pub fn top_bits(b: u8) -> [u8; 8]
    ensures { result ≡ top_bits 8 b }
{
    let mut bits = parity::bits_of(b);
    bits.reverse();
    bits
}

// Are the bits from one place of a row to another all 0?
pub fn is_zero(log: &[u8], start: usize, from: usize, to: usize) -> bool
    requires { (from ≤ to) × (to ≤ length (bits_from log.now start)) }
    ensures { result ≡ zeros (take (to - from) (drop from (bits_from log.now start))) }
{
    // Kept: as (from..to).all(..) the proof did not close. What is known of the calls of its closure did not reach the bits.
    for i in from..to {
        if super::bit_at(log, start, i) != 0 {
            return false;
        }
    }
    true
}

// Is a bit 1 where its mark is?
pub fn is_clash(x: u8, y: u8) -> bool
    ensures { result ≡ clash x y }
{
    x != 0 && y != 0
}

// Is no bit of a row 1 where its mark is?
pub fn is_apart(log: &[u8], start: usize, marks: usize, n: usize) -> bool
    requires { (n ≤ length (bits_from log.now start)) × (n ≤ length (bits_from log.now marks)) }
    ensures { result ≡ apart (row_at log.now start n) (row_at log.now marks n) }
{
    // Kept: the form of is_zero, which did not close by `all`.
    for i in 0..n {
        if is_clash(super::bit_at(log, start, i), super::bit_at(log, marks, i)) {
            return false;
        }
    }
    true
}

// Has a row bits, with zeros that fill its last byte?
pub fn is_good_row(log: &[u8], start: usize, n: usize) -> bool
    requires { (n ≤ most_bits) × (start + row_size n ≤ length log.now) }
    ensures { result ≡ good_row log.now start n }
{
    n != 0 && is_zero(log, start, n, 8 * ((n + 7) / 8))
}

// Has a row a row of marks, one of them at least, at bits that are held as 0, with zeros that fill its last byte?
pub fn is_good_marks(log: &[u8], start: usize, marks: usize, n: usize) -> bool
    requires { (n ≤ most_bits) × (start + row_size n ≤ length log.now) × (marks + row_size n ≤ length log.now) }
    ensures { result ≡ good_marks log.now start marks n }
{
    if is_zero(log, marks, 0, n) {
        return false;
    }
    is_apart(log, start, marks, n) && is_zero(log, marks, n, 8 * ((n + 7) / 8))
}

// An answer with a collision, whose row and marks start at a byte.
pub fn collided_of(log: &[u8], start: usize, n: usize) -> Record
    requires { (n ≤ most_bits) × (start + 2 * row_size n ≤ length log.now) }
    ensures { result ≡ collided_of log.now start n }
{
    let size = (n + 7) / 8;
    let marks = start + size;
    if is_good_marks(log, start, marks, n) {
        Record::Collided {
            start,
            marks,
            bits: n,
            next: start + 2 * size,
        }
    } else {
        Record::Malformed
    }
}

// A record of a kind, with n bits, whose rows start at a byte.
pub fn record_of(log: &[u8], start: usize, kind: Kind, n: usize) -> Record
    requires { (n ≤ most_bits) × (start + rows_size (kind_number kind) n ≤ length log.now) }
    ensures { result ≡ record_of log.now start (kind_number kind) n }
{
    match kind {
        Kind::Silence if n == 0 => Record::Silence { next: start },
        Kind::Silence => Record::Malformed,
        _ if !is_good_row(log, start, n) => Record::Malformed,
        Kind::Collided => collided_of(log, start, n),
        Kind::Clean => Record::Clean {
            start,
            bits: n,
            next: start + (n + 7) / 8,
        },
        Kind::Sent => Record::Sent {
            start,
            bits: n,
            next: start + (n + 7) / 8,
        },
    }
}

// The bytes that the rows of a record take.
pub fn rows_size(kind: Kind, n: usize) -> usize
    requires { n ≤ most_bits }
    ensures { result ≡ rows_size (kind_number kind) n }
{
    let size = (n + 7) / 8;
    match kind {
        Kind::Collided => 2 * size,
        _ => size,
    }
}

// The kind of a header whose first byte is a.
// Kept: two bits of a byte are read, which are never another number: TryFrom would have an error that cannot come.
fn kind_of(a: u8) -> Kind
    ensures { kind_number result ≡ kind_of a }
{
    match a / 64 {
        0 => Kind::Sent,
        1 => Kind::Clean,
        2 => Kind::Collided,
        _ => Kind::Silence,
    }
}

// What stands behind a header whose bytes are a and b.
pub fn after_header(log: &[u8], start: usize, a: u8, b: u8) -> Record
    requires { start ≤ length log.now }
    ensures { result ≡ after_header log.now start a b }
{
    let kind = kind_of(a);
    let n = u16::from_be_bytes([a % 32, b]) as usize;
    if log.len() < start + rows_size(kind, n) {
        return Record::Cut;
    }
    if a / 32 % 2 == 1 {
        return Record::Malformed;
    }
    record_of(log, start, kind, n)
}
