// Document 01, "The log (house format, fields most significant bit first)": its records and the found list's entries, written and read.
#![tactic(auto)]

ghost use Rattle.std.specs.Prelude.{◌≡◌, get_or};
ghost use Rattle.uid.specs.Uid.{uid_bytes};
ghost use Rattle.air_log.specs.Log.{entry_bytes};
ghost use Rattle.air_log.specs.Calls.{tick_size, kind_number};
ghost use Rattle.air_log.specs.Reading.{bits_from, record_at, tick_at};

use uid::Uid;

// Functions that write at a place of the lent log or list. Only the crates of this repository call them.
pub mod within;

// What a record is made of, as it is read.
mod reading;

// "The found list has 11 bytes a UID: length, bytes, zero fill".
pub fn entry(u: Uid) -> [u8; 11]
    ensures { result ≡ entry_bytes (uid_bytes u) }
{
    let n = uid::byte_count(u.size);
    let mut bytes = [0u8; 11];
    bytes[0] = n as u8;
    rows::within::put(&mut bytes, 1, &u.bytes[..n]);
    bytes
}

// "2 bits kind": a reader frame, a clean answer, an answer with a collision, silence.
#[derive(Clone, Copy, Debug, PartialEq, Eq)]
pub enum Kind {
    Sent,
    Clean,
    Collided,
    Silence,
}

impl From<Kind> for u8 {
    ghost from_gives = { λ kind number. number ≡ kind_number kind };

    // Kept: this is the conversion, by From.
    fn from(kind: Kind) -> u8 {
        match kind {
            Kind::Sent => 0,
            Kind::Clean => 1,
            Kind::Collided => 2,
            Kind::Silence => 3,
        }
    }
}

// What stands at a place of a log: a whole record, with the place of its rows, their number of bits and the place behind it.
#[derive(Clone, Copy)]
pub enum Record {
    Sent {
        start: usize,
        bits: usize,
        next: usize,
    },
    Clean {
        start: usize,
        bits: usize,
        next: usize,
    },
    Collided {
        start: usize,
        marks: usize,
        bits: usize,
        next: usize,
    },
    Silence {
        next: usize,
    },
    // Nothing: the log ends there, or before.
    End,
    // A record that the log's end cuts short.
    Cut,
    // Bytes that no record has.
    Malformed,
}

// A bit of the row that starts at a byte of the log; 0 past the log's end.
pub fn bit_at(log: &[u8], start: usize, i: usize) -> u8
    ensures { result ≡ get_or (bits_from log.now start) i 0 }
{
    let k = i / 8;
    if log.len() <= start || log.len() - start <= k {
        return 0;
    }
    reading::top_bits(log[start + k])[i % 8]
}

// The record at a place of a log whose records have stamps of so many bytes: 4 for a tick, 0 in a log without ticks (T-12).
pub fn record_in(log: &[u8], stamp: usize, at: usize) -> Record
    ensures { result ≡ record_at stamp log.now at }
{
    if log.len() <= at {
        return Record::End;
    }
    let left = log.len() - at;
    if left < 2 || left - 2 < stamp {
        return Record::Cut;
    }
    reading::after_header(log, at + 2 + stamp, log[at], log[at + 1])
}

// The record at a place of the log.
pub fn record_at(log: &[u8], at: usize) -> Record
    ensures { result ≡ record_at tick_size log.now at }
{
    record_in(log, 4, at)
}

// T-09: the tick of the record at a place of the log: when the reader's last pause ended, the card's answer began, or the wait ran out. A byte
// past the log's end counts as 0.
pub fn tick_at(log: &[u8], at: usize) -> u32
    ensures { result ≡ tick_at log.now at }
{
    if log.len() <= at {
        return 0;
    }
    u32::from_be_bytes([
        reading::byte_at(log, at + 2),
        reading::byte_at(log, at + 3),
        reading::byte_at(log, at + 4),
        reading::byte_at(log, at + 5),
    ])
}
