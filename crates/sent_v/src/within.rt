// Functions that only crates of this repository call: each has a condition, and its callers' proofs show that they meet it.
ghost use Rattle.std.specs.Prelude.{◌≡◌, ◌+◌, ◌*◌, ◌≤◌, ◌++◌, ◌∷◌, [], length, take};
ghost use Rattle.rows.specs.Rows.{overlay, fill};
ghost use Rattle.frame.specs.Frame.{air_bits};
ghost use Rattle.frame_b.specs.FrameB.{frame_b};
ghost use Rattle.sent_v.specs.Sent.{round_flags, round_length, cut_mask, grown_mask, round_bytes, mode_flags, head_flags, head_length, request_bytes};

use crate::{Head, Mode, Round};

// Three parts one behind the other and their CRC_B, at the front of a row. The answer is how many bits that are.
fn put_parts(a: &[u8], b: &[u8], d: &[u8], out: &mut [u8]) -> usize
    requires { 8 * (length a.now + length b.now + length d.now + 2) ≤ length out.old }
    ensures value { result ≡ length (frame_b (a.now ++ (b.now ++ d.now))) }
    ensures out_after { out.new ≡ overlay out.old 0 (frame_b (a.now ++ (b.now ++ d.now))) }
{
    frame_b::within::put_bits(out, 0, a);
    let k = a.len() + b.len();
    frame_b::within::put_bits(out, 8 * a.len(), b);
    frame_b::within::put_bits(out, 8 * k, d);
    let n = k + d.len();
    frame_v::within::put_crc(out, n);
    8 * (n + 2)
}

// ---- masks

// The low len bits of a mask, and zeros above them, as bits.
// Kept: the public calls take them one by one (docs/PROMISES.md), by value, and the definitions as well.
fn cut_bits(mask: [u8; 8], len: usize) -> [u8; 64]
    requires { len ≤ 64 }
    ensures { result ≡ fill 64 (take len (air_bits mask)) }
{
    let mut bits = [0u8; 64];
    frame_b::within::put_bits(&mut bits, 0, &mask);
    let mut row = [0u8; 64];
    rows::within::put(&mut row, 0, &bits[..len]);
    row
}

pub fn cut_mask(mask: [u8; 8], len: usize) -> [u8; 8]
    requires { len ≤ 64 }
    ensures { result ≡ cut_mask mask len }
{
    let bits = cut_bits(mask, len);
    let mut bytes = [0u8; 8];
    frame_b::within::bytes_of(&bits, 8, &mut bytes);
    bytes
}

// Four bits more.
pub fn grown_mask(mask: [u8; 8], len: usize, slot: u8) -> [u8; 8]
    requires { len ≤ 60 }
    ensures { result ≡ grown_mask mask len slot }
{
    let mut bits = cut_bits(mask, len);
    let s = parity::bits_of(slot);
    rows::within::put(&mut bits, len, &s[..4]);
    let mut bytes = [0u8; 8];
    frame_b::within::bytes_of(&bits, 8, &mut bytes);
    bytes
}

// ---- requests

// Kept: it is a bit of the frame that is sent or heard, or a field of the reader, as the definitions have it, and picks no step.
fn round_flags(one: bool, asks: bool) -> u8
    ensures { result ≡ round_flags one asks }
{
    match (one, asks) {
        (true, true) => 0x36,
        (true, false) => 0x26,
        (false, true) => 0x16,
        (false, false) => 0x06,
    }
}

// Kept: it is a bit of the frame that is sent or heard, or a field of the reader, as the definitions have it, and picks no step.
fn round_length(asks: bool) -> usize
    ensures value { result ≡ round_length asks }
    ensures upper_bound { result ≤ 3 }
{
    if asks { 3 } else { 2 }
}

// An inventory.
pub fn put_round(k: Round, out: &mut [u8]) -> usize
    requires { (112 ≤ length out.old) × (k.len ≤ 64) }
    ensures value { result ≡ length (frame_b (round_bytes k)) }
    ensures out_after { out.new ≡ overlay out.old 0 (frame_b (round_bytes k)) }
{
    let head = [round_flags(k.one, k.asks), 0x01, k.afi];
    let n = round_length(k.asks);
    let mask = cut_mask(k.mask, k.len as usize);
    let m = (k.len as usize + 7) / 8;
    put_parts(&head[..n], &[k.len], &mask[..m], out)
}

fn head_flags(m: Mode, option: bool) -> u8
    ensures { result ≡ head_flags m option }
{
    let f = mode_flags(m);
    if option { f + 0x40 } else { f }
}

// Kept: three bits of the flags byte, which definition mode_flags names; they are no conversion of a mode.
fn mode_flags(m: Mode) -> u8
    ensures value { result ≡ mode_flags m }
    ensures upper_bound { result ≤ 0x22 }
{
    match m {
        Mode::Addressed => 0x22,
        Mode::Any => 0x02,
        Mode::Chosen => 0x12,
    }
}

fn head_length(m: Mode) -> usize
    ensures value { result ≡ head_length m }
    ensures upper_bound { result ≤ 10 }
{
    match m {
        Mode::Addressed => 10,
        Mode::Any | Mode::Chosen => 2,
    }
}

// Flags, code and UID.
fn head_bytes(k: Head) -> [u8; 10]
    ensures { result ≡ head_flags k.mode k.option ∷ k.code ∷ k.uid }
{
    let mut bytes = [0u8; 10];
    bytes[0] = head_flags(k.mode, k.option);
    bytes[1] = k.code;
    rows::within::put(&mut bytes, 2, &k.uid);
    bytes
}

// Any other request.
pub fn put_request(k: Head, parameters: &[u8], bytes: &[u8], out: &mut [u8]) -> usize
    requires { 8 * (12 + length parameters.now + length bytes.now) ≤ length out.old }
    ensures value { result ≡ length (frame_b (request_bytes k parameters.now bytes.now)) }
    ensures out_after { out.new ≡ overlay out.old 0 (frame_b (request_bytes k parameters.now bytes.now)) }
{
    let head = head_bytes(k);
    let n = head_length(k.mode);
    put_parts(&head[..n], parameters, bytes, out)
}
