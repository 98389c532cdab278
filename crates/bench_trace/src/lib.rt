// A log for people: a line for each record. `> ` and the reader's frame, `< ` and what was heard; its name; and its bytes and left-over
// bits, collided bits as `x`, parity bits left out.
#![tactic(auto)]

mod frame_names;
mod groups;
mod lines;

use air_log::Record;
use lines::Lines;
use std::alloc::{AllocError, Global};

// The lines of a log, each with its line feed, up to its end or to what is no record.
pub fn trace(alloc: Global, log: &[u8]) -> Result<String, AllocError> {
    let mut lines = Lines::new(alloc);
    let mut at = 0;
    // There are no more records than bytes.
    for _ in 0..log.len() {
        at = match air_log::record_at(log, at) {
            Record::Sent { start, bits, next } => {
                lines.sent(row(alloc, log, start, bits)?.as_slice())?;
                next
            }
            Record::Clean { start, bits, next } => {
                lines.heard(row(alloc, log, start, bits)?.as_slice())?;
                next
            }
            Record::Collided {
                start,
                marks,
                bits,
                next,
            } => {
                lines.heard(collided_row(alloc, log, start, marks, bits)?.as_slice())?;
                next
            }
            Record::Silence { next } => {
                lines.silence()?;
                next
            }
            Record::End | Record::Cut | Record::Malformed => break,
        };
    }
    Ok(lines.text)
}

// So many bits of a log, from a byte on.
fn row(alloc: Global, log: &[u8], start: usize, bits: usize) -> Result<Vec<u8>, AllocError> {
    (0..bits)
        .map(|i| air_log::bit_at(log, start, i))
        .collect(alloc)
}

// The same, collided where the mark that belongs to the bit is set.
fn collided_row(
    alloc: Global,
    log: &[u8],
    start: usize,
    marks: usize,
    bits: usize,
) -> Result<Vec<u8>, AllocError> {
    (0..bits)
        .map(|i| match air_log::bit_at(log, marks, i) {
            1 => 2,
            _ => air_log::bit_at(log, start, i),
        })
        .collect(alloc)
}
