// Bytes and their bits. Document 01, "Frames on the air": "Air order is least significant bit first within a byte", and each byte of a
// standard frame is "followed by odd parity".
#![tactic(auto)]

ghost use Rattle.std.specs.Prelude.{◌≡◌};
ghost use Rattle.parity.specs.Bits.{bits_of, odd};

// Functions with conditions on what they are called with. Only the crates of this repository call them.
pub mod within;

// The bits of a byte in air order.
pub fn bits_of(b: u8) -> [u8; 8]
    ensures { result ≡ bits_of 8 b }
{
    let mut bits = [0u8; 8];
    let mut x = b;
    for bit in &mut bits {
        *bit = x % 2;
        x /= 2;
    }
    bits
}

// The odd parity bit of a byte: the bit that makes the number of ones odd. Each line folds the upper half of what is left onto the lower, so
// that ones that meet go out in pairs.
pub fn odd_parity(b: u8) -> u8
    ensures { result ≡ odd (bits_of 8 b) }
{
    let four = b ^ (b / 16);
    let two = four ^ (four / 4);
    let one = two ^ (two / 2);
    (1 + one % 2) % 2
}
