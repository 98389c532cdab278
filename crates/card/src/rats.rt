// Is a frame RATS, and with which FSDI?
ghost use Rattle.std.specs.Prelude.{◌≡◌, ◌≤◌, length};
ghost use Rattle.rows.specs.Rows.{same};
ghost use Rattle.selection.specs.Selection.{rats};
ghost use Rattle.card.specs.Card.{fsdi};

// The number in the high half of the second byte; below 16 unless a bit collided.
pub fn fsdi(row: &[u8]) -> usize
    requires { 17 ≤ length row.now }
    ensures { result ≡ fsdi row.now }
{
    row[13] as usize + 2 * (row[14] as usize + 2 * (row[15] as usize + 2 * (row[16] as usize)))
}

pub fn is_rats(row: &[u8]) -> bool
    ensures { result ≡ same row.now (rats (fsdi row.now)) }
{
    if row.len() != 36 {
        return false;
    }
    let i = fsdi(row);
    i <= 15 && rows::is_same(row, &selection::within::rats(i as u8))
}
