// The script language's words as values: bytes, rows and numbers.
#![tactic(auto)]

ghost use Rattle.std.specs.Prelude.{◌≡◌, ◌≤◌, length};
ghost use Rattle.bench_values.specs.Values.{hex_word, row_word, read_answer, read_after, number_word};

// The parts that the public functions are made of.
mod within;

// Hexadecimal digits of either case, the bits of a row, decimal digits.
#[derive(Clone, Copy, Debug, PartialEq, Eq)]
pub enum Alphabet {
    Hex,
    Bits,
    Decimal,
}

// Why a word was not read.
#[derive(Clone, Copy, Debug, PartialEq, Eq)]
pub enum ReadError {
    TooLong,
    NotRead,
}

// Bytes: an even number of hexadecimal digits, at least two; `-` for none. How many were written at the front of the lent memory; where none were,
// it is unchanged.
pub fn read_hex(word: &[u8], out: &mut [u8]) -> Result<usize, ReadError>
    ensures value { result ≡ read_answer (length out.old) (hex_word word.now) }
    ensures out_after { out.new ≡ read_after result (hex_word word.now) out.old }
{
    let n = word.len() / 2;
    if within::is_dash(word) {
        Ok(0)
    } else if !within::is_hex(word) {
        Err(ReadError::NotRead)
    } else if out.len() < n {
        Err(ReadError::TooLong)
    } else {
        within::write_hex(word, out);
        Ok(n)
    }
}

// A row: `0`, `1`, and `x` for a collided bit, which becomes 2; `-` for the empty one. How many bits were written, and where none were, as above.
pub fn read_row(word: &[u8], out: &mut [u8]) -> Result<usize, ReadError>
    ensures value { result ≡ read_answer (length out.old) (row_word word.now) }
    ensures out_after { out.new ≡ read_after result (row_word word.now) out.old }
{
    let n = word.len();
    if within::is_dash(word) {
        Ok(0)
    } else if !within::is_row(word) {
        Err(ReadError::NotRead)
    } else if out.len() < n {
        Err(ReadError::TooLong)
    } else {
        within::write_row(word, out);
        Ok(n)
    }
}

// A number of one to so many decimal digits.
pub fn read_number<const MOST: usize>(word: &[u8]) -> Option<usize>
    requires { MOST ≤ 10 }
    ensures { result ≡ number_word MOST word.now }
{
    if word.is_empty() {
        None
    } else if MOST < word.len() {
        None
    } else if within::is_spelt(Alphabet::Decimal, word) {
        Some(within::join(word))
    } else {
        None
    }
}
