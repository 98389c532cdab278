// A number is eight hexadecimal digits, its IEEE 754 bits with the sign first.
ghost use Rattle.std.specs.Prelude.{◌≡◌};
ghost use Rattle.std.specs.Float.{binary32};
ghost use Rattle.std.specs.Float.Ieee.{of_bits};

use bench_talk::LineError;
use std::alloc::Global;

// The number of a bit pattern. All patterns of a NaN stand for one NaN.
pub fn of_bits(bits: u32) -> f32
    ensures { result ≡ of_bits binary32 bits }
{
    if bits % 0x8000_0000 > 0x7f80_0000 {
        return 0.0 / 0.0;
    }
    f32::from_bits(bits)
}

// The numbers of a word, one behind the other; `-` for none. A line holds fewer than 2,048.
pub fn read_numbers(alloc: Global, word: &[u8]) -> Result<Vec<f32>, LineError> {
    let bytes = bench_lines::bytes(alloc, word, 8192)?;
    if bytes.len() % 4 != 0 {
        return Err(LineError::NotUnderstood);
    }
    let (quads, _) = bytes.as_chunks::<4>();
    let numbers = quads
        .iter()
        .map(|quad| of_bits(u32::from_be_bytes(*quad)))
        .collect(alloc)?;
    Ok(numbers)
}
