// Frames for C: the calls of crate frame, each answer one number, and CRC_B.
ghost use Rattle.std.specs.Prelude.{◌≡◌, ◌/◌, length};
ghost use Rattle.limits.specs.Limits.{most_bytes};
ghost use Rattle.crc.specs.Crc.{with_crc};
ghost use Rattle.crc.specs.CrcOf.{crc_b};
ghost use Rattle.frame.specs.Frame.{short, standard, first_wrong, read_frame, read_crc};
ghost use Rattle.frame.specs.Calls.{write_says, write_short_says, read_says, good_bytes, read_short};
ghost use Rattle.lacrivosum.specs.Frames.{said_number, said_left};
ghost use Rattle.refusal.specs.Refusal.{number_says};

use refusal::Refusal;

// What was written or read, or minus the refusal's number.
fn number(said: Result<usize, Refusal>) -> usize
    ensures { result ≡ said_number (number_says said) }
{
    match said {
        Ok(n) => n,
        Err(e) => kept::refused(e),
    }
}

// Writes bytes, each with its parity, and gives the bits written. 1: out is too short.
#[unsafe(no_mangle)]
pub extern "C" fn lac_frame_write(bytes: &[u8], out: &mut [u8]) -> usize
    ensures value { result ≡ said_number (write_says 0 (length out.old) (length bytes.now)) }
    ensures out_after { out.new ≡ said_left (write_says 0 (length out.old) (length bytes.now)) (standard bytes.now) out.old }
{
    number(frame::write(bytes, out))
}

// .. with their CRC_A behind them.
#[unsafe(no_mangle)]
pub extern "C" fn lac_frame_write_crc(bytes: &[u8], out: &mut [u8]) -> usize
    ensures value { result ≡ said_number (write_says 2 (length out.old) (length bytes.now)) }
    ensures out_after { out.new ≡ said_left (write_says 2 (length out.old) (length bytes.now)) (standard (with_crc bytes.now)) out.old }
{
    number(frame::write_crc(bytes, out))
}

// Writes the seven low bits of a byte as a short frame: 7 bits. 1: out is too short.
#[unsafe(no_mangle)]
pub extern "C" fn lac_frame_write_short(byte: u8, out: &mut [u8]) -> usize
    ensures value { result ≡ said_number (write_short_says (length out.old)) }
    ensures out_after { out.new ≡ said_left (write_short_says (length out.old)) (short byte) out.old }
{
    number(frame::write_short(byte, out))
}

// Reads a received row as a standard frame, and gives the number of its bytes, which stand at the front of out. 1, 2, 8, 3.
#[unsafe(no_mangle)]
pub extern "C" fn lac_frame_read(row: &[u8], out: &mut [u8]) -> usize
    ensures value { result ≡ said_number (read_says (length out.old) (read_frame 1 most_bytes row.now)) }
    ensures out_after { out.new ≡ said_left (read_says (length out.old) (read_frame 1 most_bytes row.now)) (good_bytes (read_frame 1 most_bytes row.now)) out.old }
{
    number(frame::read(row, out))
}

// .. with CRC_A at its end, which is not handed on. 1, 2, 8, 3, 4.
#[unsafe(no_mangle)]
pub extern "C" fn lac_frame_read_crc(row: &[u8], out: &mut [u8]) -> usize
    ensures value { result ≡ said_number (read_says (length out.old) (read_crc 3 most_bytes row.now)) }
    ensures out_after { out.new ≡ said_left (read_says (length out.old) (read_crc 3 most_bytes row.now)) (good_bytes (read_crc 3 most_bytes row.now)) out.old }
{
    number(frame::read_crc(row, out))
}

// Reads a received row as a short frame, and gives its seven bits as a number. 2, 8.
#[unsafe(no_mangle)]
pub extern "C" fn lac_frame_read_short(row: &[u8]) -> usize
    ensures { result ≡ said_number (read_short row.now) }
{
    number(frame::read_short(row).map(usize::from))
}

// T-07's byte index: the first of a row's whole bytes, from 0, that has no collided data bit and wrong parity; the number of them where none is so.
#[unsafe(no_mangle)]
pub extern "C" fn lac_frame_wrong(row: &[u8]) -> usize
    ensures { result ≡ first_wrong (length row.now / 9) row.now }
{
    frame::within::first_wrong(row, 0, row.len() / 9)
}

// CRC_B of bytes.
#[unsafe(no_mangle)]
pub extern "C" fn lac_crc_b(bytes: &[u8]) -> u16
    ensures { result ≡ crc_b bytes.now }
{
    crc::crc_b(bytes)
}
