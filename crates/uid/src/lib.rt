// Document 01, "UIDs and their levels": a UID from bytes, its levels with their B bytes, and its on-air row.
#![tactic(auto)]

ghost use Rattle.std.specs.Prelude.{◌≡◌, [], ◌∷◌, length};
ghost use Rattle.rows.specs.Rows.{same};
ghost use Rattle.uid.specs.Uid.{level_count, byte_count, uid_bytes, check, three_levels, valid};
ghost use Rattle.uid.specs.Calls.{new_uid, new_says, air_says, air_row_after};
ghost use Rattle.refusal.specs.Refusal.{made_says, number_says};

use refusal::Refusal;

// Functions that only the crates of this repository call.
pub mod within;

// "A UID has 4, 7 or 10 bytes".
#[derive(Clone, Copy)]
pub enum UidSize {
    Single,
    Double,
    Triple,
}

// A cascade level.
#[derive(Clone, Copy)]
pub enum Level {
    One,
    Two,
    Three,
}

// A UID of 4, 7 or 10 bytes. Bytes past its size do not count.
#[derive(Clone, Copy)]
pub struct Uid {
    pub size: UidSize,
    pub bytes: [u8; 10],
}

// The number of levels of a UID of this size.
// Kept: a size has two numbers, levels and bytes, so neither is its conversion.
pub fn level_count(s: UidSize) -> usize
    ensures { result ≡ level_count s }
{
    match s {
        UidSize::Single => 1,
        UidSize::Double => 2,
        UidSize::Triple => 3,
    }
}

// The number of bytes of a UID of this size.
// Kept: as `level_count`.
pub fn byte_count(s: UidSize) -> usize
    ensures { result ≡ byte_count s }
{
    match s {
        UidSize::Single => 4,
        UidSize::Double => 7,
        UidSize::Triple => 10,
    }
}

// B, the exclusive-or of a level's four bytes.
pub fn check_byte(a: u8, b: u8, c: u8, d: u8) -> u8
    ensures { result ≡ check (a ∷ b ∷ c ∷ d ∷ []) }
{
    a ^ (b ^ (c ^ d))
}

// The levels, "at most three rows of five bytes, handed over together"; zeros where the UID has no level.
pub fn levels(u: Uid) -> [[u8; 5]; 3]
    ensures { result ≡ three_levels u }
{
    let b = u.bytes;
    let none = [0u8; 5];
    match u.size {
        UidSize::Single => {
            let l1 = within::level_row(b[0], b[1], b[2], b[3]);
            [l1, none, none]
        }
        UidSize::Double => {
            let l1 = within::level_row(0x88, b[0], b[1], b[2]);
            let l2 = within::level_row(b[3], b[4], b[5], b[6]);
            [l1, l2, none]
        }
        UidSize::Triple => {
            let l1 = within::level_row(0x88, b[0], b[1], b[2]);
            let l2 = within::level_row(0x88, b[3], b[4], b[5]);
            let l3 = within::level_row(b[6], b[7], b[8], b[9]);
            [l1, l2, l3]
        }
    }
}

// "u0 of a 4-byte UID is not 88, u3 of a 7-byte UID is not 88".
pub fn is_valid(u: Uid) -> bool
    ensures { result ≡ valid u }
{
    let b = u.bytes;
    match u.size {
        UidSize::Single => b[0] != 0x88,
        UidSize::Double => b[3] != 0x88,
        UidSize::Triple => true,
    }
}

// A UID from bytes, or 6: "one of these lengths", and the rest of what valid means.
pub fn new_uid(bytes: &[u8]) -> Result<Uid, Refusal>
    ensures value { result ≡ new_uid bytes.now }
    ensures made_value { made_says result ≡ new_says bytes.now }
{
    match bytes.len() {
        4 => within::checked(within::sized(UidSize::Single, bytes)),
        7 => within::checked(within::sized(UidSize::Double, bytes)),
        10 => within::checked(within::sized(UidSize::Triple, bytes)),
        _ => Err(Refusal::Argument),
    }
}

// Are two UIDs the same, in length and in each byte that counts?
// Kept: a derived `==` would compare the bytes past the size too, which do not count; docs/PROMISES.md names `same_uid`.
pub fn same_uid(a: Uid, b: Uid) -> bool
    ensures { result ≡ same (uid_bytes a) (uid_bytes b) }
{
    let n = byte_count(a.size);
    let m = byte_count(b.size);
    rows::is_same(&a.bytes[..n], &b.bytes[..m])
}

// "The on-air row of a UID is its levels in air order, parity left out". It asks for room for the longest.
pub fn air_row(u: Uid, out: &mut [u8]) -> Result<usize, Refusal>
    ensures result_value { number_says result ≡ air_says (length out.old) u }
    ensures out_after { out.new ≡ air_row_after result u out.old }
{
    if out.len() < 120 {
        return Err(Refusal::Room);
    }
    let n = level_count(u.size);
    within::put_levels(out, &levels(u)[..n]);
    Ok(40 * n)
}
