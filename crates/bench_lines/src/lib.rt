// Words that several programs share: numbers and bytes with their bounds, the lines by which a row is handed to either end, a card's words, and a
// refusal.
#![tactic(auto)]

ghost use Rattle.std.specs.Prelude.{◌≡◌, ◌≤◌, IfOk, Some, length, take};
ghost use Rattle.bench_values.specs.Values.{number_word};

use bench_talk::LineError;
use refusal::Refusal;
use std::alloc::Global;
use std::fmt;

// A card's words: its UID, so many bytes at the front, whether it speaks blocks, and its size index.
#[derive(Clone, Copy)]
pub struct CardWords {
    pub uid: [u8; 10],
    pub length: usize,
    pub blocks: bool,
    pub index: u8,
}

impl CardWords {
    // The bytes of the UID.
    pub fn uid_bytes(&self) -> &[u8]
        ensures { result.now ≡ take self.now.length self.now.uid }
    {
        bench::front(&self.uid, self.length)
    }
}

// `refused N`; where the parity broke `refused 3 B`, with the byte's index.
#[derive(Clone, Copy)]
pub struct Refused(pub Refusal);

impl fmt::Display for Refused {
    fn fmt<W: fmt::Write>(&self, f: &mut fmt::Formatter<W>) -> fmt::Result {
        let n = refusal::number(self.0);
        write!(f, "refused {n}")?;
        if n == 3 {
            write!(f, " {}", refusal::place(self.0))?;
        }
        Ok(())
    }
}

// A number from 0 to most, of at most five digits.
pub fn number_to(word: &[u8], most: usize) -> Result<usize, LineError>
    ensures bound { IfOk result (λ n. n ≤ most) }
    ensures value { IfOk result (λ n. number_word 5 word.now ≡ Some n) }
{
    match bench_values::read_number::<5>(word) {
        Some(n) if n <= most => Ok(n),
        _ => Err(LineError::NotUnderstood),
    }
}

// A number from 0 to 255.
pub fn small_number(word: &[u8]) -> Result<u8, LineError> {
    let n = number_to(word, 255)?;
    u8::try_from(n).map_err(|_| LineError::NotUnderstood)
}

// A tick, 0 to 4294967295.
pub fn tick_word(word: &[u8]) -> Result<u32, LineError> {
    let n = bench_values::read_number::<10>(word).ok_or(LineError::NotUnderstood)?;
    u32::try_from(n).map_err(|_| LineError::NotUnderstood)
}

// The bytes of a word, no more than most.
pub fn bytes(alloc: Global, word: &[u8], most: usize) -> Result<Vec<u8>, LineError>
    ensures bound { IfOk result (λ bytes. length bytes.items ≤ most) }
{
    let mut bytes = vec![in alloc; 0; word.len() / 2]?;
    let n = bench_values::read_hex(word, bytes.as_mut_slice()).map_err(
        |_| LineError::NotUnderstood,
    )?;
    if n > most {
        return Err(LineError::NotUnderstood);
    }
    bytes.truncate(n);
    Ok(bytes)
}

// The bits of a row, no more than most.
pub fn bits(alloc: Global, word: &[u8], most: usize) -> Result<Vec<u8>, LineError>
    ensures bound { IfOk result (λ bits. length bits.items ≤ most) }
{
    let mut row = vec![in alloc; 0; word.len()]?;
    let n = bench_values::read_row(word, row.as_mut_slice()).map_err(|_| LineError::NotUnderstood)?;
    if n > most {
        return Err(LineError::NotUnderstood);
    }
    row.truncate(n);
    Ok(row)
}

// A UID of 1 to 10 bytes.
pub fn uid_word(alloc: Global, word: &[u8]) -> Result<Vec<u8>, LineError> {
    let uid = bytes(alloc, word, 10)?;
    if uid.is_empty() {
        return Err(LineError::NotUnderstood);
    }
    Ok(uid)
}

// A card's UID, SAK (`20` where it speaks blocks, else `00`) and size index.
pub fn card_words(
    alloc: Global,
    uid: &[u8],
    sak: &[u8],
    index: &[u8],
) -> Result<CardWords, LineError> {
    let word = uid_word(alloc, uid)?;
    let mut uid = [0u8; 10];
    for (byte, x) in uid.iter_mut().zip(word.as_slice()) {
        *byte = *x;
    }
    Ok(CardWords {
        uid,
        length: word.len(),
        blocks: match sak {
            b"00" => false,
            b"20" => true,
            _ => return Err(LineError::NotUnderstood),
        },
        index: small_number(index)?,
    })
}

// `row ROW`, `short HH`, `bytes HEX`, `crc HEX`, by the line's two words: a row of no more bits than most.
pub fn row_line(
    alloc: Global,
    name: &[u8],
    value: &[u8],
    most: usize,
) -> Result<Vec<u8>, LineError> {
    let row = match name {
        b"row" => bits(alloc, value, most)?,
        b"short" => short(alloc, value)?,
        b"bytes" => standard(alloc, bytes(alloc, value, 8192)?.as_slice())?,
        b"crc" => standard(alloc, with_crc(alloc, value)?.as_slice())?,
        _ => return Err(LineError::NotUnderstood),
    };
    if row.len() > most {
        return Err(LineError::NotUnderstood);
    }
    Ok(row)
}

// Two digits, and the row of the 7-bit frame.
fn short(alloc: Global, value: &[u8]) -> Result<Vec<u8>, LineError> {
    let bytes = bytes(alloc, value, 1)?;
    let [byte] = bytes.as_slice() else {
        return Err(LineError::NotUnderstood);
    };
    let mut row = vec![in alloc; 0; 7]?;
    match frame::write_short(*byte, row.as_mut_slice()) {
        Ok(_) => Ok(row),
        Err(_) => Err(LineError::NotUnderstood),
    }
}

// The bytes of a word with CRC_A added.
fn with_crc(alloc: Global, value: &[u8]) -> Result<Vec<u8>, LineError>
    ensures { IfOk result (λ bytes. length bytes.items ≤ 8194) }
{
    let mut bytes = bytes(alloc, value, 8192)?;
    let crc = crc::crc_bytes(bytes.as_slice());
    bytes.extend_from_slice(&crc)?;
    Ok(bytes)
}

// The row of any number of bytes. A line holds fewer than 8,192.
fn standard(alloc: Global, bytes: &[u8]) -> Result<Vec<u8>, LineError>
    requires { length bytes.now ≤ 8194 }
{
    let mut row = vec![in alloc; 0; 9 * bytes.len()]?;
    frame::within::put_bytes(row.as_mut_slice(), 0, bytes);
    Ok(row)
}
