// A state kept in lent bytes: what a reader's bytes and a card's are made of.
#![tactic(auto)]

pub mod states;
pub mod within;

ghost use Rattle.std.specs.Prelude.{◌≡◌, ◌+◌, ◌%◌, ◌*◌, min, get_or};
ghost use Rattle.limits.specs.Limits.{most_cards};
ghost use Rattle.refusal.specs.Refusal.{place_of};
ghost use Rattle.kept.specs.Kept.{flag, level_tag, level_of, size_tag, size_of, bytes_at, uid_in, word, number, refused, told_number, told_refuses, told_event, told_length};

use block::Told;
use refusal::Refusal;
use uid::{Level, Uid, UidSize};

// The bytes that a state asks for, a reader's and a card's.
pub const STATE_SIZE: usize = 64;

// .. and the room for a UID.
pub const UID_ROOM: usize = 10;

// So many cards as a field's array holds.
pub fn few(n: usize) -> usize
    ensures { result ≡ min n most_cards }
{
    n.min(limits::MOST_CARDS)
}

// The byte at a place, 0 past the end.
pub fn at(b: &[u8], i: usize) -> u8
    ensures { result ≡ get_or b.now i 0 }
{
    b.get(i).copied().unwrap_or(0)
}

pub fn flag(x: bool) -> u8
    ensures { result ≡ flag x }
{
    u8::from(x)
}

// Kept: what each byte of a state stands for is fixed for C, and any byte stands for something, so these are no From between a level and a number.
pub fn level_tag(l: Level) -> u8
    ensures { result ≡ level_tag l }
{
    match l {
        Level::One => 0,
        Level::Two => 1,
        Level::Three => 2,
    }
}

// Kept: the numbers in the lent bytes are the C interface, and any byte is read: the definitions of the state name them.
pub fn level_of(b: u8) -> Level
    ensures { result ≡ level_of b }
{
    match b {
        0 => Level::One,
        1 => Level::Two,
        _ => Level::Three,
    }
}

// Kept: the numbers in the lent bytes are the C interface, and any byte is read: the definitions of the state name them.
pub fn size_tag(z: UidSize) -> u8
    ensures { result ≡ size_tag z }
{
    match z {
        UidSize::Single => 0,
        UidSize::Double => 1,
        UidSize::Triple => 2,
    }
}

// Kept: the numbers in the lent bytes are the C interface, and any byte is read: the definitions of the state name them.
pub fn size_of(b: u8) -> UidSize
    ensures { result ≡ size_of b }
{
    match b {
        0 => UidSize::Single,
        1 => UidSize::Double,
        _ => UidSize::Triple,
    }
}

// So many bytes of a row from a place on, zeros past its end.
pub fn bytes_at<const N: usize>(b: &[u8], p: usize) -> [u8; N]
    ensures { result ≡ bytes_at N b.now p }
{
    let rest = &b[p.min(b.len())..];
    let mut bytes = [0u8; N];
    rows::within::put(&mut bytes, 0, &rest[..N.min(rest.len())]);
    bytes
}

// The UID that lent bytes say: at the same places in a reader's state and in a card's.
pub fn uid_of(b: &[u8]) -> Uid
    ensures { result ≡ uid_in b.now }
{
    Uid {
        size: size_of(at(b, 9)),
        bytes: bytes_at(b, 10),
    }
}

// A number as eight bytes, the low byte first.
pub fn word(n: usize) -> [u8; 8]
    ensures { result ≡ word 8 n }
{
    n.to_le_bytes()
}

// The number that eight bytes say from a place on, the low byte first, zeros past the end.
pub fn number_at(b: &[u8], p: u8) -> usize
    ensures { result ≡ number 8 b.now p }
{
    usize::from_le_bytes(bytes_at(b, usize::from(p)))
}

// Minus a refusal's number.
pub fn refused(e: Refusal) -> usize
    ensures { result ≡ refused e }
{
    usize::from(refusal::number(e)).wrapping_neg()
}

// The byte index that comes with a refusal (T-07).
pub fn place(e: Refusal) -> usize
    ensures { result ≡ place_of e }
{
    usize::from(refusal::place(e))
}

// So many bits to send, or minus a refusal's number.
pub fn told_number(bits: usize, t: Told) -> usize
    ensures { result ≡ told_number bits t }
{
    match t {
        Told::Refused(e) => refused(e),
        _ => bits,
    }
}

// Is it a refusal?
pub fn told_refuses(t: Told) -> bool
    ensures { result ≡ told_refuses t }
{
    matches!(t, Told::Refused(_))
}

// What else a host is told: the event's number ..
// Kept: the numbers in the lent bytes are the C interface, and any byte is read: the definitions of the state name them.
pub fn told_event(t: Told) -> u8
    ensures { result ≡ told_event t }
{
    match t {
        Told::Message(_) => 5,
        Told::Granted => 6,
        Told::Deselected => 7,
        Told::Quiet | Told::Refused(_) => 0,
    }
}

// .. and the length of a message, or the byte index that comes with a refusal (T-07).
pub fn told_length(t: Told) -> usize
    ensures { result ≡ told_length t }
{
    match t {
        Told::Message(n) => n,
        Told::Refused(e) => place(e),
        Told::Quiet | Told::Granted | Told::Deselected => 0,
    }
}
