// The parts that the public functions are made of.
ghost use Rattle.std.specs.Prelude.{◌≡◌, min, ◌<◌, IsAscii};
ghost use Rattle.bench_text.specs.Text.{Wrote, hex_char, hex_byte, bit_char, last_digit};

use crate::put;
use std::str;

pub fn least(a: usize, b: usize) -> usize
    ensures { result ≡ min a b }
{
    if a < b { a } else { b }
}

// The digit of a number below 16, in capitals.
pub fn hex_char(d: u8) -> u8
    requires { d < 16 }
    ensures { result ≡ hex_char d }
{
    if d < 10 { 48 + d } else { 55 + d }
}

// A byte as two digits.
pub fn put_byte(out: &mut [u8], at: usize, b: u8) -> usize
    ensures { Wrote out.old at (hex_byte b) result out.new }
{
    put(out, at, &[hex_char(b / 16), hex_char(b % 16)])
}

// `0`, `1`, or `x` for a collided bit.
pub fn bit_char(x: u8) -> u8
    ensures { result ≡ bit_char x }
{
    if x == 0 {
        return 48;
    }
    if x == 1 { 49 } else { 120 }
}

// The last decimal digit of a number.
pub fn put_last_digit(out: &mut [u8], at: usize, n: usize) -> usize
    ensures { Wrote out.old at (last_digit n) result out.new }
{
    put(out, at, &[48 + (n % 10) as u8])
}

// ASCII bytes as text.
pub fn ascii(bytes: &[u8]) -> &str
    requires { IsAscii bytes.now }
    ensures { result.now ≡ bytes.now }
{
    let Ok(text) = str::from_utf8(bytes) else {
        unreachable!();
    };
    text
}
