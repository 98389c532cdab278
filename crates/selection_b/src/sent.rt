// The frames of Type B that reader and card send: rows of data bits, by value.
ghost use Rattle.std.specs.Prelude.{◌≡◌, ◌+◌, ◌*◌, [], ◌∷◌, length};
ghost use Rattle.frame_b.specs.FrameB.{frame_b};
ghost use Rattle.selection_b.specs.TypeB.{is_slots, code_of, param, request, marker, atqb_bytes, kind_of, attrib, attrib_for, hltb, done};

// Is N one of 1, 2, 4, 8, 16?
#[tactic(auto, using(std::proofs::lemmas::Bool::Decides::nat_tests), unfolding(crate::specs::TypeB::is_slots))]
pub fn is_slots(n: u8) -> bool
    ensures { result ≡ is_slots n }
{
    matches!(n, 1 | 2 | 4 | 8 | 16)
}

// The code of N in PARAM.
// Kept: N and its code are both numbers, and any N is told: definition code_of.
#[tactic(auto, using(std::proofs::lemmas::Bool::Decides::nat_tests), unfolding(crate::specs::TypeB::code_of))]
fn code_of(n: u8) -> u8
    ensures { result ≡ code_of n }
{
    match n {
        1 => 0,
        2 => 1,
        4 => 2,
        8 => 3,
        _ => 4,
    }
}

// Kept: it is a bit of the frame that is sent or heard, or a field of the reader, as the definitions have it, and picks no step.
#[tactic(auto, using(crate::specs::SlotsLaws::code_most), unfolding(crate::specs::TypeB::param))]
fn param(wake: bool, n: u8) -> u8
    ensures { result ≡ param wake n }
{
    let k = code_of(n);
    if wake { 8 + k } else { k }
}

// Bytes and their CRC_B, which take the whole row.
fn framed<const N: usize>(bytes: &[u8]) -> [u8; N]
    requires { 8 * (length bytes.now + 2) ≡ N }
    ensures { result ≡ frame_b bytes.now }
{
    let mut row = [0u8; N];
    frame_b::within::put_frame(&mut row, bytes);
    row
}

// Three bytes and their CRC_B.
pub fn three_bytes(a: u8, b: u8, d: u8) -> [u8; 40]
    ensures { result ≡ frame_b (a ∷ b ∷ d ∷ []) }
{
    framed(&[a, b, d])
}

// REQB, or WUPB where wake.
// Kept: it is a bit of the frame that is sent or heard, or a field of the reader, as the definitions have it, and picks no step.
#[tactic(auto, unfolding(crate::specs::TypeB::request))]
pub fn request(wake: bool, n: u8, afi: u8) -> [u8; 40]
    ensures { result ≡ request wake n afi }
{
    three_bytes(0x05, afi, param(wake, n))
}

// One byte and its CRC_B.
pub fn one_byte(a: u8) -> [u8; 24]
    ensures { result ≡ frame_b (a ∷ []) }
{
    framed(&[a])
}

// Slot-MARKER of a slot.
#[tactic(auto, using(std::proofs::lemmas::Bool::Decides::nat_tests), unfolding(crate::specs::TypeB::marker))]
pub fn marker(slot: u8) -> [u8; 24]
    ensures { result ≡ marker slot }
{
    one_byte(16 * (slot.saturating_sub(1) % 16) + 0x05)
}

// What a card answers to ATTRIB and to HLTB.
#[tactic(auto, unfolding(crate::specs::TypeB::done))]
pub fn done() -> [u8; 24]
    ensures { result ≡ done }
{
    one_byte(0x00)
}

// ATQB without CRC_B.
fn atqb_bytes(pupi: [u8; 4], application: [u8; 4], protocol: [u8; 3]) -> [u8; 12]
    ensures { result ≡ atqb_bytes pupi application protocol }
{
    let mut bytes = [0x50u8; 12];
    rows::within::put(&mut bytes, 1, &pupi);
    rows::within::put(&mut bytes, 5, &application);
    rows::within::put(&mut bytes, 9, &protocol);
    bytes
}

pub fn atqb(pupi: [u8; 4], application: [u8; 4], protocol: [u8; 3]) -> [u8; 112]
    ensures { result ≡ frame_b (atqb_bytes pupi application protocol) }
{
    framed(&atqb_bytes(pupi, application, protocol))
}

pub fn attrib(pupi: [u8; 4], parameters: [u8; 4]) -> [u8; 88]
    ensures { result ≡ attrib pupi parameters }
{
    let mut bytes = [0x1Du8; 9];
    rows::within::put(&mut bytes, 1, &pupi);
    rows::within::put(&mut bytes, 5, &parameters);
    framed(&bytes)
}

pub fn hltb(pupi: [u8; 4]) -> [u8; 56]
    ensures { result ≡ hltb pupi }
{
    let mut bytes = [0x50u8; 5];
    rows::within::put(&mut bytes, 1, &pupi);
    framed(&bytes)
}

// Param 3 for a card whose second byte of protocol information is b.
#[tactic(auto, using(std::proofs::lemmas::Bool::Decides::nat_tests), unfolding(crate::specs::TypeB::kind_of))]
fn kind_of(b: u8) -> u8
    ensures { result ≡ kind_of b }
{
    if b % 16 == 1 { 0x01 } else { 0x00 }
}

// ATTRIB to the card of an ATQB.
pub fn attrib_for(atqb: [u8; 12], index: u8) -> [u8; 88]
    ensures { result ≡ attrib_for atqb index }
{
    let kind = kind_of(atqb[10]);
    let pupi = [atqb[1], atqb[2], atqb[3], atqb[4]];
    attrib(pupi, [0x00, index, kind, 0x00])
}
