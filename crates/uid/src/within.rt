// Functions that only crates of this repository call. Some have a condition, and their callers' proofs show that they meet it.
ghost use Rattle.std.specs.Prelude.{◌≡◌, [], ◌∷◌, map, ◌+◌, ◌*◌, ◌≤◌, length, take};
ghost use Rattle.rows.specs.Rows.{overlay};
ghost use Rattle.frame.specs.Frame.{air_bits};
ghost use Rattle.uid.specs.Uid.{level, air};
ghost use Rattle.uid.specs.Calls.{sized, checked};

use super::{Uid, UidSize};
use refusal::Refusal;

// A level's five bytes, from its four.
pub fn level_row(a: u8, b: u8, c: u8, d: u8) -> [u8; 5]
    ensures { result ≡ level (a ∷ b ∷ c ∷ d ∷ []) }
{
    [a, b, c, d, super::check_byte(a, b, c, d)]
}

// Bytes as a UID of a size, zeros behind.
pub fn sized(size: UidSize, bytes: &[u8]) -> Uid
    requires { length bytes.now ≤ 10 }
    ensures { result ≡ sized size bytes.now }
{
    let mut ten = [0u8; 10];
    rows::within::put(&mut ten, 0, bytes);
    Uid { size, bytes: ten }
}

// A UID that is valid, or 6.
pub fn checked(u: Uid) -> Result<Uid, Refusal>
    ensures { result ≡ checked u }
{
    if super::is_valid(u) {
        Ok(u)
    } else {
        Err(Refusal::Argument)
    }
}

// A level in air order, parity left out, written into out from index at on.
pub fn put_level(out: &mut [u8], at: usize, five: [u8; 5])
    requires { at + 40 ≤ length out.old }
    ensures out_after { out.new ≡ overlay out.old at (air_bits five) }
    ensures five_len { length five ≡ 5 }
{
    for (i, &b) in five.iter().enumerate() {
        rows::within::put(out, at + 8 * i, &parity::bits_of(b));
    }
}

// The levels in air order, at the front of out.
pub fn put_levels(out: &mut [u8], rows: &[[u8; 5]])
    requires { 40 * length rows.now ≤ length out.old }
    ensures out_after { out.new ≡ overlay out.old 0 (air (map air_bits rows.now)) }
    ensures rows_len { length (air (map air_bits rows.now)) ≡ 40 * length rows.now }
{
    for (i, &five) in rows.iter().enumerate() {
        put_level(out, 40 * i, five);
    }
}
