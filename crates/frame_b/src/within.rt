// Functions that only crates of this repository call: each has a condition, and its callers' proofs show that they meet it.
ghost use Rattle.std.specs.Prelude.{◌≡◌, true, ◌+◌, ◌*◌, ◌≤◌, length};
ghost use Rattle.rows.specs.Rows.{overlay, clean};
ghost use Rattle.frame.specs.Frame.{air_bits, bytes_of};
ghost use Rattle.frame_b.specs.FrameB.{frame_b};

// Writes bytes, eight bits each, into out from index at on.
pub fn put_bits(out: &mut [u8], at: usize, bytes: &[u8])
    requires { at + 8 * length bytes.now ≤ length out.old }
    ensures { out.new ≡ overlay out.old at (air_bits bytes.now) }
{
    for (i, b) in bytes.iter().enumerate() {
        rows::within::put(out, at + 8 * i, &parity::bits_of(*b));
    }
}

// Writes bytes and then their CRC_B at the front of out.
pub fn put_frame(out: &mut [u8], bytes: &[u8])
    requires { 8 * (length bytes.now + 2) ≤ length out.old }
    ensures { out.new ≡ overlay out.old 0 (frame_b bytes.now) }
{
    let k = crc::crc_bytes_b(bytes);
    put_bits(out, 0, bytes);
    put_bits(out, 8 * bytes.len(), &k);
}

// Writes the n bytes of a row with no collided bit at the front of out.
pub fn bytes_of(row: &[u8], n: usize, out: &mut [u8])
    requires { (8 * n ≤ length row.now) × (n ≤ length out.old) × (clean row.now ≡ true) }
    ensures { out.new ≡ overlay out.old 0 (bytes_of n row.now) }
{
    for (i, byte) in out[..n].iter_mut().enumerate() {
        *byte = parity::within::byte_at(row, 8 * i);
    }
}
