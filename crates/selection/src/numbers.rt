// SEL, NVB and the other numbers that a selection's frames are made of.
ghost use Rattle.std.specs.Prelude.{◌≡◌, ◌+◌, ◌%◌, min};
ghost use Rattle.uid.specs.Uid.{place};
ghost use Rattle.selection.specs.Selection.{sel, nvb, cut, atqa_byte, at_most8, size};

use uid::{Level, UidSize};

// The levels before a level.
// Kept: a level has two numbers, its place and SEL, so neither is its conversion.
pub fn place(l: Level) -> usize
    ensures { result ≡ place l }
{
    match l {
        Level::One => 0,
        Level::Two => 1,
        Level::Three => 2,
    }
}

// 93, 95 or 97.
// Kept: as `place`.
pub fn sel(l: Level) -> u8
    ensures { result ≡ sel l }
{
    match l {
        Level::One => 0x93,
        Level::Two => 0x95,
        Level::Three => 0x97,
    }
}

// NVB for k known bits: in the high half the whole bytes sent, SEL and NVB included, in the low half the bits left over.
pub fn nvb(k: u8) -> u8
    ensures { result ≡ nvb k % 256 }
{
    (2 + k / 8) % 16 * 16 + k % 8
}

// How many air bits the first k bits of a level are, parity included: at most 45, the whole level.
pub fn cut(k: u8) -> usize
    ensures { result ≡ min (cut k) 45 }
{
    let n = k as usize;
    let c = n + n / 8;
    if c < 45 { c } else { 45 }
}

// How many air bits ANTICOLLISION has with k bits known.
pub fn anticollision_bits(k: u8) -> usize
    ensures { result ≡ 18 + min (cut k) 45 }
{
    18 + cut(k)
}

// The first byte of ATQA.
// Kept: a frame's byte by the size, no conversion of it.
pub fn atqa_byte(z: UidSize) -> u8
    ensures { result ≡ atqa_byte z }
{
    match z {
        UidSize::Single => 0x04,
        UidSize::Double => 0x44,
        UidSize::Triple => 0x84,
    }
}

// A size index, 9 and above read as 8.
pub fn at_most_8(i: u8) -> u8
    ensures { result ≡ at_most8 i }
{
    if i > 8 { 8 } else { i }
}

const SIZES: [usize; 8] = [16, 24, 32, 40, 48, 64, 96, 128];

// The frame size in bytes that a size index stands for.
pub fn size_of(index: u8) -> usize
    ensures { result ≡ size index }
{
    let i = index as usize;
    if i < 8 {
        return SIZES[i];
    }
    256
}
