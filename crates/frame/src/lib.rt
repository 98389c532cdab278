// Document 01, "Frames on the air": short and standard frames, written into lent rows and read back from received rows.
//
// A row has one byte for each air bit: 0, 1, and any other value is a collided bit. A frame is written at the front of the lent row, and
// the bytes of a received frame at the front of the lent bytes. What lies behind stays. A refusal writes nothing.
// Refusals, by document 01's table: 1 room, 2 length, 8 a collided bit, 3 parity, 4 CRC_A; a received frame is tested in the order
// 2, 8, 3, 4, and room, which does not depend on what was heard, before all of them. Writing is refused with 1 alone: the table gives 2 for
// what is received.
#![tactic(auto)]

ghost use Rattle.std.specs.Prelude.{◌≡◌, length};
ghost use Rattle.crc.specs.Crc.{with_crc};
ghost use Rattle.frame.specs.Frame.{short, air_byte, standard, whole_bytes, read_frame, read_crc};
ghost use Rattle.frame.specs.Calls.{write_says, write_short_says, row_after, read_says, bytes_after, read_short};
ghost use Rattle.limits.specs.Limits.{most_bytes};
ghost use Rattle.refusal.specs.Refusal.{number_says};

use refusal::Refusal;

// Functions with conditions on what they are called with. Only the crates of this repository call them.
pub mod within;

// A byte on the air: its bits, the lowest first, and then odd parity.
pub fn air_byte(b: u8) -> [u8; 9]
    ensures { result ≡ air_byte b }
{
    let d = parity::bits_of(b);
    let p = parity::odd_parity(b);
    [d[0], d[1], d[2], d[3], d[4], d[5], d[6], d[7], p]
}

// Writes bytes, each with its parity. 1 to 256 of them are a standard frame.
pub fn write(bytes: &[u8], out: &mut [u8]) -> Result<usize, Refusal>
    ensures result_value { number_says result ≡ write_says 0 (length out.old) (length bytes.now) }
    ensures out_after { out.new ≡ row_after result (standard bytes.now) out.old }
{
    let n = bytes.len();
    if out.len() / 9 < n {
        return Err(Refusal::Room);
    }
    within::put_bytes(out, 0, bytes);
    Ok(9 * n)
}

// Writes bytes and then their CRC_A, each byte with its parity. 1 to 254 of them make a standard frame.
pub fn write_crc(bytes: &[u8], out: &mut [u8]) -> Result<usize, Refusal>
    ensures result_value { number_says result ≡ write_says 2 (length out.old) (length bytes.now) }
    ensures out_after { out.new ≡ row_after result (standard (with_crc bytes.now)) out.old }
{
    let m = bytes.len();
    if out.len() / 9 < m + 2 {
        return Err(Refusal::Room);
    }
    let k = crc::crc_bytes(bytes);
    within::put_bytes(out, 0, bytes);
    within::put_bytes(out, 9 * m, &k);
    Ok(9 * (m + 2))
}

// Writes the seven low bits of a byte as a short frame.
pub fn write_short(b: u8, out: &mut [u8]) -> Result<usize, Refusal>
    ensures result_value { number_says result ≡ write_short_says (length out.old) }
    ensures out_after { out.new ≡ row_after result (short b) out.old }
{
    if out.len() < 7 {
        return Err(Refusal::Room);
    }
    let d = parity::bits_of(b);
    rows::within::put(out, 0, &d[..7]);
    Ok(7)
}

// Reads a received row as a standard frame of 1 to 256 bytes. It asks for 256 bytes of room, whatever is heard.
pub fn read(row: &[u8], out: &mut [u8]) -> Result<usize, Refusal>
    ensures result_value { number_says result ≡ read_says (length out.old) (read_frame 1 most_bytes row.now) }
    ensures out_after { out.new ≡ bytes_after result (read_frame 1 most_bytes row.now) out.old }
{
    within::read_within(row, 1, limits::MOST_BYTES, out)
}

// Reads a received row as a standard frame of 3 to 256 bytes that end with their CRC_A, which is not handed on.
pub fn read_crc(row: &[u8], out: &mut [u8]) -> Result<usize, Refusal>
    ensures result_value { number_says result ≡ read_says (length out.old) (read_crc 3 most_bytes row.now) }
    ensures out_after { out.new ≡ bytes_after result (read_crc 3 most_bytes row.now) out.old }
{
    within::read_crc_within(row, limits::MOST_BYTES, out)
}

// Reads a received row as a short frame.
pub fn read_short(row: &[u8]) -> Result<u8, Refusal>
    ensures { number_says result ≡ read_short row.now }
{
    if row.len() != 7 {
        return Err(Refusal::Length);
    }
    if !rows::is_clean(row) {
        return Err(Refusal::Collision);
    }
    Ok(parity::within::number_of(row))
}

// Is a row of n bits whole bytes with parity, least to most of them?
#[tactic(auto, unfolding(crate::specs::Frame::whole_bytes))]
fn is_whole(n: usize, least: usize, most: usize) -> bool
    ensures { result ≡ whole_bytes least most n }
{
    n % 9 == 0 && least <= n / 9 && n / 9 <= most
}
