// A received row as the bytes of a good frame, and a block's bytes as the row that is sent. Called by our own crates only, which lend the room.
ghost use Rattle.std.specs.Prelude.{◌≡◌, ◌≤◌, length, take};
ghost use Rattle.limits.specs.Limits.{row_room};
ghost use Rattle.rows.specs.Rows.{overlay};
ghost use Rattle.frame.specs.Calls.{good_bytes};
ghost use Rattle.block.specs.Row.{block_row, heard_row, tested};

use crate::BlockBytes;
use refusal::Refusal;

// Reads a row to the front of lent bytes as an end of this size index takes it; silence and a damaged frame have no bytes.
pub fn read_row(own: u8, row: &[u8], out: &mut [u8]) -> usize
    requires { 256 ≤ length out.old }
    ensures value { result ≡ length (good_bytes (heard_row own row.now)) }
    ensures out_after { out.new ≡ overlay out.old 0 (good_bytes (heard_row own row.now)) }
{
    let most = selection::numbers::size_of(own);
    frame::within::read_crc_within(row, most, out).unwrap_or(0)
}

// Writes the row of a block's bytes to the front of a lent row that has room for the longest frame.
pub fn put_block(b: BlockBytes, out: &mut [u8]) -> usize
    requires { (b.count ≤ 254) × (row_room ≤ length out.old) }
    ensures value { result ≡ length (block_row (take b.count b.bytes)) }
    ensures out_after { out.new ≡ overlay out.old 0 (block_row (take b.count b.bytes)) }
{
    let n = b.count;
    if n == 0 {
        return 0;
    }
    let bytes = &b.bytes[..n];
    frame::within::put_bytes(out, 0, bytes);
    frame::within::put_bytes(out, 9 * n, &crc::crc_bytes(bytes));
    9 * n + 18
}

// What each call of a whole end says ahead of its rules: 11 where it is not due, then 1 where the lent row, which has so much room, could not take the
// longest frame.
pub fn tested(due: bool, room: usize) -> Result<(), Refusal>
    ensures { result ≡ tested due room }
{
    if !due {
        Err(Refusal::NotDue)
    } else if room < limits::ROW_ROOM {
        Err(Refusal::Room)
    } else {
        Ok(())
    }
}
