// Functions that only crates of this repository call: each has a condition, and its callers' proofs show that they meet it.
ghost use Rattle.std.specs.Prelude.{◌≡◌, true, ◌+◌, ◌*◌, ◌≤◌, length, take, drop};
ghost use Rattle.rows.specs.Rows.{overlay, clean};
ghost use Rattle.frame.specs.Frame.{standard, data_of, bytes_of, wrong_byte, first_wrong, read_frame, without_crc, read_crc};
ghost use Rattle.frame.specs.Calls.{received, read_answer, bytes_after};
ghost use Rattle.limits.specs.Limits.{most_bytes};

use refusal::Refusal;

// Writes bytes with parity into out from index at on.
pub fn put_bytes(out: &mut [u8], at: usize, bytes: &[u8])
    requires { at + 9 * length bytes.now ≤ length out.old }
    ensures { out.new ≡ overlay out.old at (standard bytes.now) }
{
    for (i, &b) in bytes.iter().enumerate() {
        rows::within::put(out, at + 9 * i, &crate::air_byte(b));
    }
}

// Has the byte at index at no collided data bit and wrong parity? A collided parity bit is wrong.
fn is_wrong(row: &[u8], at: usize) -> bool
    requires { at + 9 ≤ length row.now }
    ensures { result ≡ wrong_byte (drop at row.now) }
{
    rows::is_clean(&row[at..at + 8])
        && row[at + 8] != parity::odd_parity(parity::within::byte_at(row, at))
}

// The first of the n bytes at index at, from 0, that has no collided data bit and wrong parity; n where none is so. A collided parity bit is
// wrong.
pub fn first_wrong(row: &[u8], at: usize, n: usize) -> usize
    requires { at + 9 * n ≤ length row.now }
    ensures { result ≡ first_wrong n (drop at row.now) }
{
    for i in 0..n {
        if is_wrong(row, at + 9 * i) {
            return i;
        }
    }
    n
}

// Writes the n bytes of a row with no collided bit at the front of out, parity left out.
pub fn bytes_of(row: &[u8], n: usize, out: &mut [u8])
    requires { (9 * n ≤ length row.now) × (n ≤ length out.old) × (clean row.now ≡ true) }
    ensures { out.new ≡ overlay out.old 0 (bytes_of n (data_of n row.now)) }
{
    for (i, b) in out[..n].iter_mut().enumerate() {
        *b = parity::within::byte_at(row, 9 * i);
    }
}

// Writes the bytes of a row with no collided bit at the front of out, parity left out, up to the first of n whose parity is wrong, and gives the
// place of that one; n where none is so.
pub fn sound_bytes(row: &[u8], n: usize, out: &mut [u8]) -> usize
    requires { (9 * n ≤ length row.now) × (n ≤ length out.old) × (clean row.now ≡ true) }
    ensures value { result ≡ first_wrong n row.now }
    ensures out_after { out.new ≡ overlay out.old 0 (bytes_of result (data_of result row.now)) }
{
    for (k, byte) in out[..n].iter_mut().enumerate() {
        let b = parity::within::byte_at(row, 9 * k);
        if row[9 * k + 8] != parity::odd_parity(b) {
            return k;
        }
        *byte = b;
    }
    n
}

// Reads a received row as a standard frame of least to most bytes, tested 2, 8, 3; before these 1, room for 256 bytes. The bytes are read into
// an array of its own while their parity is tested, so that the row is walked once for both and nothing is written into out before all is right.
pub fn read_within(row: &[u8], least: usize, most: usize, out: &mut [u8]) -> Result<usize, Refusal>
    requires { most ≤ most_bytes }
    ensures value { result ≡ read_answer (length out.old) (read_frame least most row.now) }
    ensures out_after { out.new ≡ bytes_after result (read_frame least most row.now) out.old }
{
    if out.len() < limits::MOST_BYTES {
        return Err(Refusal::Room);
    }
    if !crate::is_whole(row.len(), least, most) {
        return Err(Refusal::Length);
    }
    if !rows::is_clean(row) {
        return Err(Refusal::Collision);
    }
    let n = row.len() / 9;
    let mut held = [0u8; limits::MOST_BYTES];
    let p = sound_bytes(row, n, &mut held);
    if p < n {
        return Err(Refusal::Parity(p as u8));
    }
    rows::within::put(out, 0, &held[..n]);
    Ok(n)
}

// Hands on the first n of the held bytes without CRC_A, their last two; 4 where those are wrong.
pub fn without_crc(held: &[u8], n: usize, out: &mut [u8]) -> Result<usize, Refusal>
    requires { (2 ≤ n) × (n ≤ length held.now) × (n ≤ length out.old) }
    ensures value { result ≡ received (without_crc (take n held.now)) }
    ensures out_after { out.new ≡ bytes_after result (without_crc (take n held.now)) out.old }
{
    if !crc::is_good(&held[..n]) {
        return Err(Refusal::Crc);
    }
    let m = n - 2;
    rows::within::put(out, 0, &held[..m]);
    Ok(m)
}

// Reads a received row as a standard frame of 3 to most bytes that end with their CRC_A, tested 2, 8, 3, 4; before these 1. The bytes
// are read into an array of its own, so that nothing is written into out before CRC_A is found right.
pub fn read_crc_within(row: &[u8], most: usize, out: &mut [u8]) -> Result<usize, Refusal>
    requires { most ≤ most_bytes }
    ensures value { result ≡ read_answer (length out.old) (read_crc 3 most row.now) }
    ensures out_after { out.new ≡ bytes_after result (read_crc 3 most row.now) out.old }
{
    if out.len() < limits::MOST_BYTES {
        return Err(Refusal::Room);
    }
    let mut held = [0u8; limits::MOST_BYTES];
    let n = read_within(row, 3, most, &mut held)?;
    without_crc(&held, n, out)
}
