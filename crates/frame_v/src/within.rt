// Functions that only crates of this repository call: each has a condition, and its callers' proofs show that they meet it.
ghost use Rattle.std.specs.Prelude.{◌≡◌, true, ◌+◌, ◌*◌, ◌/◌, ◌%◌, ◌≤◌, length, take};
ghost use Rattle.rows.specs.Rows.{overlay, clean};
ghost use Rattle.crc.specs.Crc.{shift, crc_byte};
ghost use Rattle.crc.specs.CrcOf.{crc_b, crc_bytes_b, crc_good_b};
ghost use Rattle.frame.specs.Frame.{air_bits, bytes_of};

// The register after one bit.
#[tactic(auto, using(std::proofs::lemmas::Bool::Decides::nat_tests), unfolding(crc::specs::Crc::shift))]
fn shift(c: u16) -> u16
    ensures { result ≡ shift c }
{
    if c % 2 == 1 { (c / 2) ^ 0x8408 } else { c / 2 }
}

// .. after one byte more.
fn shift_byte(c: u16, b: u8) -> u16
    ensures { result ≡ crc_byte c b }
{
    let mut x = c ^ u16::from(b);
    for _ in 0..8usize {
        x = shift(x);
    }
    x
}

// CRC_B of the first n bytes of a row with no collided bit.
fn row_crc(row: &[u8], n: usize) -> u16
    requires { (8 * n ≤ length row.now) × (clean (take (8 * n) row.now) ≡ true) }
    ensures { result ≡ crc_b (bytes_of n row.now) }
{
    let mut c: u16 = 0xFFFF;
    // Kept: chunks of eight bits would be counted off from the first n bytes and read by `byte_at` at 0, which is no plainer.
    for i in 0..n {
        c = shift_byte(c, parity::within::byte_at(row, 8 * i));
    }
    c ^ 0xFFFF
}

// .. as it is sent, low byte first.
fn row_crc_bytes(row: &[u8], n: usize) -> [u8; 2]
    requires { (8 * n ≤ length row.now) × (clean (take (8 * n) row.now) ≡ true) }
    ensures { result ≡ crc_bytes_b (bytes_of n row.now) }
{
    let c = row_crc(row, n);
    [(c % 256) as u8, (c / 256) as u8]
}

// Writes the CRC_B of the first n bytes of a row behind them.
pub fn put_crc(out: &mut [u8], n: usize)
    requires { (8 * (n + 2) ≤ length out.old) × (clean (take (8 * n) out.old) ≡ true) }
    ensures { out.new ≡ overlay out.old (8 * n) (air_bits (crc_bytes_b (bytes_of n out.old))) }
{
    let k = row_crc_bytes(out, n);
    frame_b::within::put_bits(out, 8 * n, &k);
}

// Are the last two bytes of a row of whole bytes, two at least, none of its bits collided, the CRC_B of those before?
pub fn is_good(row: &[u8]) -> bool
    requires { (length row.now % 8 ≡ 0) × (16 ≤ length row.now) × (clean row.now ≡ true) }
    ensures { result ≡ crc_good_b (bytes_of (length row.now / 8) row.now) }
{
    let n = row.len() / 8 - 2;
    let due = row_crc_bytes(row, n);
    let low = parity::within::byte_at(row, 8 * n);
    let high = parity::within::byte_at(row, 8 * n + 8);
    [low, high] == due
}
