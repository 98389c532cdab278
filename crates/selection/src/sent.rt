// The frames that a reader and a card send in a selection: rows of air bits, parity included, by value.
ghost use Rattle.std.specs.Prelude.{◌≡◌};
ghost use Rattle.frame.specs.Frame.{standard};
ghost use Rattle.selection.specs.Selection.{reqa, wupa, hlta, select, sak_frame, atqa};

use uid::{Level, UidSize};

pub fn reqa() -> [u8; 7]
    ensures { result ≡ reqa }
{
    [0, 1, 1, 0, 0, 1, 0]
}

pub fn wupa() -> [u8; 7]
    ensures { result ≡ wupa }
{
    [0, 1, 0, 0, 1, 0, 1]
}

pub fn hlta() -> [u8; 36]
    ensures { result ≡ hlta }
{
    crate::within::two_bytes(0x50, 0x00)
}

// SAK and its CRC_A.
pub fn sak_frame(sak: u8) -> [u8; 27]
    ensures { result ≡ sak_frame sak }
{
    let data = [sak];
    let crc = crc::crc_bytes(&data);
    let bytes = [sak, crc[0], crc[1]];
    let mut row = [0u8; 27];
    frame::within::put_bytes(&mut row, 0, &bytes);
    row
}

pub fn atqa(z: UidSize) -> [u8; 18]
    ensures { result ≡ atqa z }
{
    let bytes = [crate::numbers::atqa_byte(z), 0];
    let mut row = [0u8; 18];
    frame::within::put_bytes(&mut row, 0, &bytes);
    row
}

// A level's five bytes with parity: the row that ANTICOLLISION and its answer share.
pub fn level_row(five: [u8; 5]) -> [u8; 45]
    ensures { result ≡ standard five }
{
    let mut row = [0u8; 45];
    frame::within::put_bytes(&mut row, 0, &five);
    row
}

pub fn select(l: Level, five: [u8; 5]) -> [u8; 81]
    ensures { result ≡ select l five }
{
    let s = crate::numbers::sel(l);
    let data = [s, 0x70, five[0], five[1], five[2], five[3], five[4]];
    let crc = crc::crc_bytes(&data);
    let mut row = [0u8; 81];
    frame::within::put_bytes(&mut row, 0, &data);
    frame::within::put_bytes(&mut row, 63, &crc);
    row
}
