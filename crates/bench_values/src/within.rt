// The parts that the public functions are made of.
ghost use Rattle.std.specs.Prelude.{◌≡◌, ◌&&◌, ◌+◌, ◌*◌, ◌/◌, ◌%◌, ◌≤◌, length, eqb, leb};
ghost use Rattle.rows.specs.Rows.{overlay};
ghost use Rattle.bench_values.specs.declared.Alphabet.TheVariants.{Hex, Bits};
ghost use Rattle.bench_values.specs.Values.{hex_value, bit_value, decimal_value, value_of, spelt, is_dash, hex_pair, hex_bytes, row_bits, joined};

use crate::Alphabet;

// Kept: 16 for a letter that stands for nothing is what the definitions hex_value, bit_value and decimal_value say, and the laws of reading back.
#[tactic(auto, unfolding(crate::specs::Values::hex_value))]
pub fn hex_value(c: u8) -> u8
    ensures { result ≡ hex_value c }
{
    match c {
        b'0'..=b'9' => c - b'0',
        b'A'..=b'F' => c - b'A' + 10,
        b'a'..=b'f' => c - b'a' + 10,
        _ => 16,
    }
}

#[tactic(auto, unfolding(crate::specs::Values::bit_value))]
pub fn bit_value(c: u8) -> u8
    ensures { result ≡ bit_value c }
{
    match c {
        b'0' => 0,
        b'1' => 1,
        b'x' => 2,
        _ => 16,
    }
}

#[tactic(auto, unfolding(crate::specs::Values::decimal_value))]
pub fn decimal_value(c: u8) -> u8
    ensures { result ≡ decimal_value c }
{
    match c {
        b'0'..=b'9' => c - b'0',
        _ => 16,
    }
}

// What a letter stands for; 16 where it stands for nothing.
pub fn value_of(a: Alphabet, c: u8) -> u8
    ensures { result ≡ value_of a c }
{
    match a {
        Alphabet::Hex => hex_value(c),
        Alphabet::Bits => bit_value(c),
        Alphabet::Decimal => decimal_value(c),
    }
}

// Does every letter of the word stand for something?
pub fn is_spelt(a: Alphabet, word: &[u8]) -> bool
    ensures { result ≡ spelt a word.now }
{
    for &c in word {
        if value_of(a, c) >= 16 {
            return false;
        }
    }
    true
}

// Is the word `-`?
pub fn is_dash(word: &[u8]) -> bool
    ensures { result ≡ is_dash word.now }
{
    rows::is_same(word, &[45])
}

// An even number of hexadecimal digits, at least two?
pub fn is_hex(word: &[u8]) -> bool
    ensures { result ≡ (leb 2 (length word.now) && eqb (length word.now % 2) 0 && spelt Hex word.now) }
{
    2 <= word.len() && word.len() % 2 == 0 && is_spelt(Alphabet::Hex, word)
}

// At least one bit, and nothing but bits?
pub fn is_row(word: &[u8]) -> bool
    ensures { result ≡ (leb 1 (length word.now) && spelt Bits word.now) }
{
    1 <= word.len() && is_spelt(Alphabet::Bits, word)
}

// The byte that two digits make.
pub fn hex_pair(a: u8, b: u8) -> u8
    ensures { result ≡ hex_pair a b }
{
    16 * (hex_value(a) % 16) + hex_value(b) % 16
}

// Writes the bytes of a word at the front of out.
pub fn write_hex(word: &[u8], out: &mut [u8])
    requires { length word.now / 2 ≤ length out.old }
    ensures { out.new ≡ overlay out.old 0 (hex_bytes word.now) }
{
    let n = word.len() / 2;
    for (i, byte) in out[..n].iter_mut().enumerate() {
        *byte = hex_pair(word[2 * i], word[2 * i + 1]);
    }
}

// Writes the bits of a word at the front of out.
pub fn write_row(word: &[u8], out: &mut [u8])
    requires { length word.now ≤ length out.old }
    ensures { out.new ≡ overlay out.old 0 (row_bits word.now) }
{
    for (i, c) in word.iter().enumerate() {
        out[i] = bit_value(*c);
    }
}

// The number that at most ten digits make.
pub fn join(word: &[u8]) -> usize
    requires { length word.now ≤ 10 }
    ensures { result ≡ joined 0 word.now }
{
    let mut v: usize = 0;
    for &c in word {
        v = 10 * v + (decimal_value(c) % 10) as usize;
    }
    v
}
