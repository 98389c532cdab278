// Functions that only crates of this repository call: most have a condition, and their callers' proofs show that they meet it.
ghost use Rattle.std.specs.Prelude.{◌≡◌, [], ◌∷◌, ◌≤◌, ◌<◌, length};
ghost use Rattle.rows.specs.Rows.{overlay, same};
ghost use Rattle.crc.specs.Crc.{with_crc};
ghost use Rattle.frame.specs.Frame.{standard};
ghost use Rattle.selection.specs.Selection.{anticollision, rats, ats};

use uid::Level;

// A frame of two bytes and their CRC_A.
pub fn two_bytes(a: u8, b: u8) -> [u8; 36]
    ensures { result ≡ standard (with_crc (a ∷ b ∷ [])) }
{
    let data = [a, b];
    let crc = crc::crc_bytes(&data);
    let bytes = [a, b, crc[0], crc[1]];
    let mut row = [0u8; 36];
    frame::within::put_bytes(&mut row, 0, &bytes);
    row
}

// RATS with CID 0 (document 01, "RATS, ATS and blocks"). FSDI is the high half of a byte, so there are 16 of them.
pub fn rats(fsdi: u8) -> [u8; 36]
    requires { fsdi < 16 }
    ensures { result ≡ rats fsdi }
{
    two_bytes(0xE0, 16 * fsdi)
}

// Our card's ATS. FSCI is the low half of T0, so there are 16 of them; the high half announces nothing.
pub fn ats(fsci: u8) -> [u8; 36]
    requires { fsci < 16 }
    ensures { result ≡ ats fsci }
{
    two_bytes(0x02, fsci)
}

// Writes ANTICOLLISION of a level, k bits of its five bytes known, at the front of out.
pub fn put_anticollision(l: Level, k: u8, five: [u8; 5], out: &mut [u8])
    requires { 63 ≤ length out.old }
    ensures { out.new ≡ overlay out.old 0 (anticollision l k five) }
{
    let head = [crate::numbers::sel(l), crate::numbers::nvb(k)];
    frame::within::put_bytes(out, 0, &head);
    let level = crate::sent::level_row(five);
    let n = crate::numbers::cut(k);
    rows::within::put(out, 18, &level[..n]);
}

// Is the row ANTICOLLISION of this level with k bits of these five bytes? "k from 0 to 39": a row with all 40 of them is none.
pub fn is_anticollision(row: &[u8], l: Level, k: u8, five: [u8; 5]) -> bool
    requires { k < 40 }
    ensures { result ≡ same row.now (anticollision l k five) }
{
    let mut space = [0u8; 63];
    put_anticollision(l, k, five, &mut space);
    let n = crate::numbers::anticollision_bits(k);
    rows::is_same(row, &space[..n])
}
