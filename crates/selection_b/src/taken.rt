// What a card makes of a row.
ghost use Rattle.std.specs.Prelude.{◌≡◌, true, length};
ghost use Rattle.rows.specs.Rows.{same, clean};
ghost use Rattle.selection_b.specs.TypeB.{hltb};
ghost use Rattle.selection_b.specs.TakenB.{slots_of, request_read, admits, is_marker, is_attrib};

use crate::Request;

// N of a code in PARAM; 0 for a code that is none.
// Kept: N and its code are both numbers, and any code is read: definition slots_of.
#[tactic(auto, using(std::proofs::lemmas::Bool::Decides::nat_tests), unfolding(crate::specs::TakenB::slots_of))]
fn slots_of(code: u8) -> u8
    ensures { result ≡ slots_of code }
{
    match code {
        0 => 1,
        1 => 2,
        2 => 4,
        3 => 8,
        4 => 16,
        _ => 0,
    }
}

// A row of 40 bits, none of them collided.
#[tactic(auto, using(std::proofs::lemmas::Bool::Decides::nat_tests), unfolding(crate::specs::TakenB::request_read, crate::specs::TakenB::is_request, crate::specs::TakenB::wakes, crate::specs::TakenB::slots_in))]
fn request_in(row: &[u8]) -> Option<Request>
    requires { (length row.now ≡ 40) × (clean row.now ≡ true) }
    ensures { result ≡ request_read row.now }
{
    let afi = parity::within::byte_at(row, 8);
    let m = parity::within::byte_at(row, 16);
    if m < 16 && m % 8 <= 4 && rows::is_same(row, &crate::sent::three_bytes(0x05, afi, m)) {
        Some(Request {
            wake: m >= 8,
            slots: slots_of(m % 8),
            afi,
        })
    } else {
        None
    }
}

// Is the row REQB or WUPB, and which?
pub fn read_request(row: &[u8]) -> Option<Request>
    ensures { result ≡ request_read row.now }
{
    if row.len() == 40 && rows::is_clean(row) {
        request_in(row)
    } else {
        None
    }
}

// Does a request's AFI admit a card's?
#[tactic(auto, using(std::proofs::lemmas::Bool::Decides::nat_tests), unfolding(crate::specs::TakenB::admits))]
pub fn admits(asked: u8, own: u8) -> bool
    ensures { result ≡ admits asked own }
{
    asked == 0x00 || asked == own || asked % 16 == 0 && asked / 16 == own / 16
}

// Is the row the marker of this slot?
#[tactic(auto, using(std::proofs::lemmas::Bool::Decides::nat_tests), unfolding(crate::specs::TakenB::is_marker))]
pub fn is_marker(slot: u8, row: &[u8]) -> bool
    ensures { result ≡ is_marker slot row.now }
{
    2 <= slot && slot <= 16 && rows::is_same(row, &crate::sent::marker(slot))
}

// Is the row ATTRIB to the card with this PUPI?
pub fn is_attrib(pupi: [u8; 4], row: &[u8]) -> bool
    ensures { result ≡ is_attrib pupi row.now }
{
    if row.len() != 88 || !rows::is_clean(row) {
        return false;
    }
    let mut parameters = [0u8; 4];
    frame_b::within::bytes_of(&row[40..], 4, &mut parameters);
    rows::is_same(row, &crate::sent::attrib(pupi, parameters))
}

// Is the row HLTB to the card with this PUPI?
pub fn is_hltb(pupi: [u8; 4], row: &[u8]) -> bool
    ensures { result ≡ same row.now (hltb pupi) }
{
    rows::is_same(row, &crate::sent::hltb(pupi))
}
