// ATS, as the reader reads it: the card's size index, or why not.
ghost use Rattle.std.specs.Prelude.{◌≡◌};
ghost use Rattle.selection.specs.Heard.{announced, ats_bytes, read_ats};
ghost use Rattle.refusal.specs.Refusal.{number_says};

use refusal::Refusal;

// How many of TA, TB and TC b5, b6 and b7 of T0 announce.
fn announced(t0: u8) -> usize
    ensures { result ≡ announced t0 }
{
    let n = t0 / 16 % 2 + t0 / 32 % 2 + t0 / 64 % 2;
    n as usize
}

// The bytes of an ATS, CRC_A left out.
fn read_bytes(l: &[u8]) -> Result<u8, Refusal>
    ensures { result ≡ ats_bytes l.now }
{
    if l.len() == 0 {
        return Err(Refusal::Forbidden);
    }
    let tl = l[0];
    if l.len() == 1 {
        if tl == 1 {
            return Ok(2);
        }
        return Err(Refusal::Forbidden);
    }
    let t0 = l[1];
    if tl as usize != l.len() {
        return Err(Refusal::Forbidden);
    }
    if 0x80 <= t0 {
        return Err(Refusal::Forbidden);
    }
    if l.len() - 2 < announced(t0) {
        return Err(Refusal::Forbidden);
    }
    Ok(crate::numbers::at_most_8(t0 % 16))
}

// ATS, heard by a reader of this size index.
pub fn read_ats(own: u8, row: &[u8]) -> Result<u8, Refusal>
    ensures value { result ≡ read_ats own row.now }
    ensures result_value { number_says result ≡ number_says (read_ats own row.now) }
{
    if row.len() == 0 {
        return Err(Refusal::Silence);
    }
    let most = crate::numbers::size_of(own);
    let mut bytes = [0u8; limits::MOST_BYTES];
    let n = frame::within::read_crc_within(row, most, &mut bytes)?;
    read_bytes(&bytes[..n])
}
