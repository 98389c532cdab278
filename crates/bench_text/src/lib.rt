// The script language's text: what the programs write. Each function writes its text into lent bytes from index `at` on and answers the
// index behind it, so that the next text goes there. What does not fit is cut off.
#![tactic(auto)]

ghost use Rattle.std.specs.Prelude.{◌≤◌, length, Some};
ghost use Rattle.std.specs.Fmt.{WritesOnOk};
ghost use Rattle.bench_text.specs.Text.{Wrote, hex_digits, hex_text, bits_text, row_text, decimal_text};

// Functions with conditions on what they are called with, and parts. Only the crates of this repository call them.
pub mod within;

use std::fmt;

// Bytes as the programs print them: hexadecimal capitals; `-` for none.
#[derive(Clone, Copy)]
pub struct Hex<'a>(pub &'a [u8]);

impl fmt::Display for Hex<'_> {
    ghost output = { λ h. Some (hex_text h.0.now) };

    fn fmt<W: fmt::Write>(&self, f: &mut fmt::Formatter<W>) -> fmt::Result {
        if self.0.is_empty() {
            return f.write_str("-");
        }
        for piece in self.0.chunks(32) {
            write_hex(f, piece)?;
        }
        Ok(())
    }
}

// A row as the programs print it: `0`, `1`, and `x` for a collided bit; `-` for the empty one.
#[derive(Clone, Copy)]
pub struct Row<'a>(pub &'a [u8]);

impl fmt::Display for Row<'_> {
    ghost output = { λ r. Some (row_text r.0.now) };

    fn fmt<W: fmt::Write>(&self, f: &mut fmt::Formatter<W>) -> fmt::Result {
        if self.0.is_empty() {
            return f.write_str("-");
        }
        for piece in self.0.chunks(64) {
            write_bits(f, piece)?;
        }
        Ok(())
    }
}

// A piece of bytes in one write: a write for each digit costs several times as much.
fn write_hex<W: fmt::Write>(f: &mut fmt::Formatter<W>, bytes: &[u8]) -> fmt::Result
    requires { length bytes.now ≤ 32 }
    ensures { WritesOnOk W.write_str_gives f.old result (hex_digits bytes.now) f.new }
{
    let mut text = [0; 64];
    for (i, byte) in bytes.iter().enumerate() {
        text[2 * i] = within::hex_char(*byte / 16);
        text[2 * i + 1] = within::hex_char(*byte % 16);
    }
    f.write_str(within::ascii(&text[..2 * bytes.len()]))
}

// A piece of a row in one write.
fn write_bits<W: fmt::Write>(f: &mut fmt::Formatter<W>, row: &[u8]) -> fmt::Result
    requires { length row.now ≤ 64 }
    ensures { WritesOnOk W.write_str_gives f.old result (bits_text row.now) f.new }
{
    let mut text = [0; 64];
    for (i, bit) in row.iter().enumerate() {
        text[i] = within::bit_char(*bit);
    }
    f.write_str(within::ascii(&text[..row.len()]))
}

// The given text.
// Kept: the lent bytes and the place in them: the clause Wrote speaks of both, and docs/PROMISES.md names the calls.
pub fn put(out: &mut [u8], at: usize, text: &[u8]) -> usize
    ensures { Wrote out.old at text.now result out.new }
{
    if out.len() <= at {
        return at;
    }
    let room = out.len() - at;
    let n = within::least(room, text.len());
    rows::within::put(out, at, &text[..n]);
    at + n
}

// Bytes in hexadecimal capitals; `-` for none.
pub fn put_hex(out: &mut [u8], at: usize, bytes: &[u8]) -> usize
    ensures { Wrote out.old at (hex_text bytes.now) result out.new }
{
    if bytes.is_empty() {
        return put(out, at, b"-");
    }
    let mut p = at;
    for byte in bytes {
        p = within::put_byte(out, p, *byte);
    }
    p
}

// Bits without a sign for the empty row: `0`, `1`, and `x` for anything else, a collided bit.
pub fn put_bits(out: &mut [u8], at: usize, row: &[u8]) -> usize
    ensures { Wrote out.old at (bits_text row.now) result out.new }
{
    let mut p = at;
    for bit in row {
        p = put(out, p, &[within::bit_char(*bit)]);
    }
    p
}

// A row; `-` for the empty one.
pub fn put_row(out: &mut [u8], at: usize, row: &[u8]) -> usize
    ensures { Wrote out.old at (row_text row.now) result out.new }
{
    if row.is_empty() {
        return put(out, at, b"-");
    }
    put_bits(out, at, row)
}

// A number in decimal, with no zeros in front.
pub fn put_decimal(out: &mut [u8], at: usize, n: usize) -> usize
    ensures { Wrote out.old at (decimal_text n) result out.new }
{
    if n < 10 {
        return within::put_last_digit(out, at, n);
    }
    let p = put_decimal(out, at, n / 10);
    within::put_last_digit(out, p, n)
}
