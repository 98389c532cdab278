// Rows of air bits, one byte of the row for each bit, and rows of bytes.
// Document 01, "Frames on the air": "A received row gives each bit as 0, 1 or collided". A value over 1 is a collided bit.
#![tactic(auto)]

ghost use Rattle.std.specs.Prelude.{◌≡◌, max};
ghost use Rattle.rows.specs.Rows.{clean, same};

// Functions with conditions on what they are called with. Only the crates of this repository call them.
pub mod within;

// The larger of two elements.
fn larger(a: u8, b: u8) -> u8
    ensures { result ≡ max a b }
{
    if a < b { b } else { a }
}

// Has no bit of a received row collided? The largest element tells. A loop that ends only with the row is compiled to one that takes many
// elements at a time.
pub fn is_clean(row: &[u8]) -> bool
    ensures { result ≡ clean row.now }
{
    let mut most: u8 = 0;
    for x in row {
        most = larger(most, *x);
    }
    most <= 1
}

// Are two rows equal, in length and in each element?
// Kept: docs/PROMISES.md names it; what it does is the slices' own `==`.
pub fn is_same(a: &[u8], b: &[u8]) -> bool
    ensures { result ≡ same a.now b.now }
{
    a == b
}
