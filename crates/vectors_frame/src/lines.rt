// The lines: the first word says what is done with the second.
use bench_lines::Refused;
use bench_talk::{LineError, Program};
use bench_text::{Hex, Row};
use refusal::Refusal;
use std::alloc::Global;

// The most bits of a row that is read, and the most bytes of a word. Both are more than a frame has.
const MOST_BITS: usize = 4096;

const MOST_BYTES: usize = 512;

// Nothing stays from one line to the next.
#[derive(Drop)]
pub struct Lines;

impl Program for Lines {
    fn answer(&mut self, alloc: Global, words: &[&[u8]]) -> Result<String, LineError> {
        match words {
            [b"read", row] => received(alloc, row, frame::read),
            [b"readcrc", row] => received(alloc, row, frame::read_crc),
            [b"readshort", row] => received_short(alloc, row),
            [b"short", byte] => written_short(alloc, byte),
            [b"bytes", bytes] => written(alloc, bytes, frame::write),
            [b"crc", bytes] => written(alloc, bytes, frame::write_crc),
            [b"crca", bytes] => crc_a(alloc, bytes),
            [b"check", bytes] => check(alloc, bytes),
            [b"uid", bytes] => levels(alloc, bytes),
            _ => Err(LineError::NotUnderstood),
        }
    }
}

// A frame's bytes, as `bytes HEX`.
fn received<R: Fn(&[u8], &mut [u8]) -> Result<usize, Refusal>>(
    alloc: Global,
    row: &[u8],
    read: R,
) -> Result<String, LineError>
    requires { R.IsAlwaysCallable read }
{
    let row = bench_lines::bits(alloc, row, MOST_BITS)?;
    let mut bytes = vec![in alloc; 0; limits::MOST_BYTES]?;
    match read(row.as_slice(), bytes.as_mut_slice()) {
        Ok(n) => {
            let bytes = Hex(bench::front(bytes.as_slice(), n));
            Ok(format!(in alloc; "bytes {bytes}")?)
        }
        Err(refusal) => refused(alloc, refusal),
    }
}

fn received_short(alloc: Global, row: &[u8]) -> Result<String, LineError> {
    let row = bench_lines::bits(alloc, row, MOST_BITS)?;
    match frame::read_short(row.as_slice()) {
        Ok(byte) => Ok(format!(in alloc; "short {}", Hex(&[byte]))?),
        Err(refusal) => refused(alloc, refusal),
    }
}

// A frame of the bytes, as `row ROW`. There is room for all of them, so that a frame that is too long is refused as one.
fn written<W: Fn(&[u8], &mut [u8]) -> Result<usize, Refusal>>(
    alloc: Global,
    bytes: &[u8],
    write: W,
) -> Result<String, LineError>
    requires { W.IsAlwaysCallable write }
{
    let bytes = bench_lines::bytes(alloc, bytes, MOST_BYTES)?;
    let mut row = vec![in alloc; 0; 9 * (MOST_BYTES + 2)]?;
    let written = write(bytes.as_slice(), row.as_mut_slice());
    said(alloc, written, row.as_slice())
}

fn written_short(alloc: Global, byte: &[u8]) -> Result<String, LineError> {
    let bytes = bench_lines::bytes(alloc, byte, 1)?;
    let [byte] = bytes.as_slice() else {
        return Err(LineError::NotUnderstood);
    };
    let mut row = [0; 7];
    let written = frame::write_short(*byte, &mut row);
    said(alloc, written, &row)
}

// What was written at the front of a row.
fn said(alloc: Global, written: Result<usize, Refusal>, row: &[u8]) -> Result<String, LineError> {
    match written {
        Ok(n) => Ok(format!(in alloc; "row {}", Row(bench::front(row, n)))?),
        Err(refusal) => refused(alloc, refusal),
    }
}

fn refused(alloc: Global, refusal: Refusal) -> Result<String, LineError> {
    Ok(format!(in alloc; "{}", Refused(refusal))?)
}

fn crc_a(alloc: Global, bytes: &[u8]) -> Result<String, LineError> {
    let bytes = bench_lines::bytes(alloc, bytes, MOST_BYTES)?;
    let crc = crc::crc_bytes(bytes.as_slice());
    Ok(format!(in alloc; "crc {}", Hex(&crc))?)
}

// The exclusive-or of the bytes.
fn check(alloc: Global, bytes: &[u8]) -> Result<String, LineError> {
    let bytes = bench_lines::bytes(alloc, bytes, MOST_BYTES)?;
    let b = bytes.iter().fold(0, |x, byte| x ^ byte);
    Ok(format!(in alloc; "b {}", Hex(&[b]))?)
}

// A UID: `levels N`, three rows of five bytes, and `row ROW`, the on-air row.
fn levels(alloc: Global, bytes: &[u8]) -> Result<String, LineError> {
    let bytes = bench_lines::bytes(alloc, bytes, MOST_BYTES)?;
    let uid = match uid::new_uid(bytes.as_slice()) {
        Ok(uid) => uid,
        Err(refusal) => return refused(alloc, refusal),
    };
    let mut row = [0; 120];
    match uid::air_row(uid, &mut row) {
        Ok(n) => {
            let count = uid::level_count(uid.size);
            let [one, two, three] = uid::levels(uid);
            let [one, two, three] = [Hex(&one), Hex(&two), Hex(&three)];
            let row = Row(bench::front(&row, n));
            Ok(format!(in alloc; "levels {count} {one} {two} {three} row {row}")?)
        }
        Err(refusal) => refused(alloc, refusal),
    }
}
