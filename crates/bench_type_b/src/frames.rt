// Rows in text: data bits only.
ghost use Rattle.std.specs.Prelude.{◌≤◌, length};

use bench_talk::LineError;
use std::alloc::{AllocError, Global};

// `row ROW`, `bytes HEX`, `crc HEX`, by the two words. A line holds fewer than 8,192 bytes.
pub fn row_line(alloc: Global, name: &[u8], value: &[u8]) -> Result<Vec<u8>, LineError> {
    match name {
        b"row" => bench_lines::bits(alloc, value, 16384),
        b"bytes" => Ok(plain(alloc, bench_lines::bytes(alloc, value, 8192)?.as_slice())?),
        b"crc" => Ok(with_crc(alloc, bench_lines::bytes(alloc, value, 8192)?.as_slice())?),
        _ => Err(LineError::NotUnderstood),
    }
}

fn plain(alloc: Global, bytes: &[u8]) -> Result<Vec<u8>, AllocError>
    requires { length bytes.now ≤ 8192 }
{
    let mut row = vec![in alloc; 0; 8 * bytes.len()]?;
    frame_b::within::put_bits(row.as_mut_slice(), 0, bytes);
    Ok(row)
}

// The same with CRC_B added.
fn with_crc(alloc: Global, bytes: &[u8]) -> Result<Vec<u8>, AllocError>
    requires { length bytes.now ≤ 8192 }
{
    let mut row = vec![in alloc; 0; 8 * (bytes.len() + 2)]?;
    frame_b::within::put_frame(row.as_mut_slice(), bytes);
    Ok(row)
}
