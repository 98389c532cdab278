// The records of a log, against what is due there. Some functions have a condition, and their callers' proofs show that they meet it.
ghost use Rattle.std.specs.Prelude.{◌≡◌, cond, ◌≤◌, length, eqb};
ghost use Rattle.rows.specs.Rows.{overlay, same};
ghost use Rattle.air_log.specs.Calls.{most_bits};
ghost use Rattle.air_log.specs.Reading.{bits_from, row_at, record_at};
ghost use Rattle.trace_rules.specs.Trace.{marked, heard_row, sent_passed};
ghost use Rattle.trace.specs.Reads.{heard_of};

use air_log::Record;
use refusal::Refusal;

// The longest row that a record has.
const MOST_BITS: usize = 8191;

// What was heard, by its record: so many bits, at the front of the lent row; and the place behind the record.
#[derive(Clone, Copy)]
pub struct Heard {
    pub bits: usize,
    pub next: usize,
}

// The bits of a row that starts at a byte of the log, at the front of out.
fn put_bits(log: &[u8], start: usize, n: usize, out: &mut [u8])
    requires { (n ≤ length (bits_from log.now start)) × (n ≤ length out.old) }
    ensures { out.new ≡ overlay out.old 0 (row_at log.now start n) }
{
    for (i, bit) in out[..n].iter_mut().enumerate() {
        *bit = air_log::bit_at(log, start, i);
    }
}

// A bit as it was heard: collided where it is marked.
fn heard_bit(x: u8, mark: u8) -> u8
    ensures { result ≡ cond (eqb mark 0) x 2 }
{
    if mark == 0 { x } else { 2 }
}

// The same with collided bits where the row of marks has a 1.
fn put_marked(log: &[u8], start: usize, marks: usize, n: usize, out: &mut [u8])
    requires { (n ≤ length (bits_from log.now start)) × (n ≤ length (bits_from log.now marks)) × (n ≤ length out.old) }
    ensures { out.new ≡ overlay out.old 0 (marked (row_at log.now start n) (row_at log.now marks n)) }
{
    for (i, bit) in out[..n].iter_mut().enumerate() {
        *bit = heard_bit(
            air_log::bit_at(log, start, i),
            air_log::bit_at(log, marks, i),
        );
    }
}

// Does the log have this row from a byte on?
fn holds(log: &[u8], start: usize, n: usize, row: &[u8]) -> bool
    requires { (n ≤ length (bits_from log.now start)) × (n ≤ most_bits) }
    ensures { result ≡ same (row_at log.now start n) row.now }
{
    let mut bits = [0u8; MOST_BITS];
    put_bits(log, start, n, &mut bits);
    rows::is_same(&bits[..n], row)
}

// A reader's record is due, with this frame.
pub fn sent_at(log: &[u8], stamp: usize, at: usize, frame: &[u8]) -> Result<usize, Refusal>
    ensures { result ≡ sent_passed log.now frame.now (record_at stamp log.now at) }
{
    match trace_reader::read_at(log, stamp, at) {
        Record::Sent { start, bits, next } => {
            if holds(log, start, bits, frame) {
                Ok(next)
            } else {
                Err(Refusal::Forbidden)
            }
        }
        Record::End => Err(Refusal::Length),
        Record::Cut => Err(Refusal::Length),
        _ => Err(Refusal::Forbidden),
    }
}

// The record of what was heard is due.
pub fn heard_at(log: &[u8], stamp: usize, at: usize, row: &mut [u8]) -> Result<Heard, Refusal>
    requires { most_bits ≤ length row.old }
    ensures value { result ≡ heard_of log.now (record_at stamp log.now at) }
    ensures row_after { row.new ≡ overlay row.old 0 (heard_row log.now (record_at stamp log.now at)) }
{
    match trace_reader::read_at(log, stamp, at) {
        Record::Clean { start, bits, next } => {
            put_bits(log, start, bits, row);
            Ok(Heard { bits, next })
        }
        Record::Collided {
            start,
            marks,
            bits,
            next,
        } => {
            put_marked(log, start, marks, bits, row);
            Ok(Heard { bits, next })
        }
        Record::Silence { next } => Ok(Heard { bits: 0, next }),
        Record::End => Err(Refusal::Length),
        Record::Cut => Err(Refusal::Length),
        _ => Err(Refusal::Forbidden),
    }
}
