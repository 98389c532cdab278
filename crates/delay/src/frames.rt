// Which frame a row is, and its last data bit. T-09: "REQA, WUPA, ANTICOLLISION and SELECT" are found by the card's own tests; a damaged one is
// another frame.
ghost use Rattle.std.specs.Prelude.{◌≡◌, true, take, drop};
ghost use Rattle.rows.specs.Rows.{clean, same};
ghost use Rattle.selection.specs.Selection.{select};
ghost use Rattle.parity.specs.Bits.{unbits};
ghost use Rattle.delay.specs.Kind.{five_of, is_anticollision, is_select, level_kind, kind_of, after_one};

use crate::Kind;
use card::anticollision::is_matching;
use uid::Level;

// Was the last data bit a 1? Each ninth bit of a row is parity; behind a short frame's bits and a broken byte's there is none.
pub fn after_one(row: &[u8]) -> bool
    ensures { result ≡ after_one row.now }
{
    let n = row.len();
    if n == 0 {
        false
    } else if n % 9 == 0 {
        row[n - 2] == 1
    } else {
        row[n - 1] == 1
    }
}

// The byte whose bits begin at index at. Bits that are not there are 0.
fn byte_from(row: &[u8], at: usize) -> u8
    requires { clean row.now ≡ true }
    ensures { result ≡ unbits (take 8 (drop at row.now)) }
{
    if row.len() <= at {
        0
    } else if row.len() - at < 8 {
        parity::within::number_of(&row[at..])
    } else {
        parity::within::byte_at(row, at)
    }
}

// The five bytes behind SEL and NVB.
fn five_of(row: &[u8]) -> [u8; 5]
    requires { clean row.now ≡ true }
    ensures { result ≡ five_of row.now }
{
    [
        byte_from(row, 18),
        byte_from(row, 27),
        byte_from(row, 36),
        byte_from(row, 45),
        byte_from(row, 54),
    ]
}

// Is it an ANTICOLLISION of any level that a card with these five bytes answers?
fn is_anticollision(row: &[u8], five: [u8; 5]) -> bool
    ensures { result ≡ is_anticollision five row.now }
{
    is_matching(row, Level::One, five)
        || is_matching(row, Level::Two, five)
        || is_matching(row, Level::Three, five)
}

// Is it the SELECT of this level and these bytes?
fn is_select_of(row: &[u8], l: Level, five: [u8; 5]) -> bool
    ensures { result ≡ same row.now (select l five) }
{
    rows::is_same(row, &selection::sent::select(l, five))
}

// .. of any level?
fn is_select(row: &[u8], five: [u8; 5]) -> bool
    ensures { result ≡ is_select five row.now }
{
    is_select_of(row, Level::One, five)
        || is_select_of(row, Level::Two, five)
        || is_select_of(row, Level::Three, five)
}

// ANTICOLLISION, SELECT, or another frame.
fn level_kind(row: &[u8]) -> Kind
    requires { clean row.now ≡ true }
    ensures { result ≡ level_kind row.now }
{
    let five = five_of(row);
    if is_anticollision(row, five) {
        Kind::Anticollision
    } else if is_select(row, five) {
        Kind::Select
    } else {
        Kind::Other
    }
}

// The kind of the reader's frame.
pub fn kind_of(row: &[u8]) -> Kind
    ensures { result ≡ kind_of row.now }
{
    if rows::is_same(row, &selection::sent::reqa()) {
        Kind::Reqa
    } else if rows::is_same(row, &selection::sent::wupa()) {
        Kind::Wupa
    } else if rows::is_clean(row) {
        level_kind(row)
    } else {
        // no frame that is sent has a collided bit
        Kind::Other
    }
}
