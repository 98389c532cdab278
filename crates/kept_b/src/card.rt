// A Type B card kept in lent bytes.
ghost use Rattle.std.specs.Prelude.{◌≡◌};
ghost use Rattle.kept_b.specs.KeptCardB.{state_tag, state_slot, state_in, card_bytes, card_in, Fits, taken_number, taken_refuses};

use card_b::{CardB, StateB};
use refusal::Refusal;

// Which state a card is in, as a byte.
// Kept: the numbers in the lent bytes are the C interface, and any byte is read: the definitions of the state name them.
pub fn state_tag(s: StateB) -> u8
    ensures { result ≡ state_tag s }
{
    match s {
        StateB::Off => 0,
        StateB::Idle => 1,
        StateB::Requested(_) => 2,
        StateB::Declared => 3,
        StateB::Active => 4,
        StateB::Halt => 5,
    }
}

fn state_slot(s: StateB) -> u8
    ensures { result ≡ state_slot s }
{
    match s {
        StateB::Requested(n) => n,
        _ => 0,
    }
}

// Kept: the numbers in the lent bytes are the C interface, and any byte is read: the definitions of the state name them.
fn state_in(t: u8, n: u8) -> StateB
    ensures { result ≡ state_in t n }
{
    match t {
        0 => StateB::Off,
        1 => StateB::Idle,
        2 => StateB::Requested(n),
        3 => StateB::Declared,
        4 => StateB::Active,
        _ => StateB::Halt,
    }
}

// A card as 15 bytes.
pub fn card_bytes(c: CardB) -> [u8; 15]
    ensures value { result ≡ card_bytes c }
    ensures fits { Fits c }
{
    let p = c.pupi;
    let a = c.application;
    let i = c.protocol;
    let tag = state_tag(c.state);
    let slot = state_slot(c.state);
    let markers = kept::flag(c.markers);
    [
        tag, slot, c.afi, markers, p[0], p[1], p[2], p[3], a[0], a[1], a[2], a[3], i[0], i[1], i[2],
    ]
}

// The card that lent bytes say.
pub fn card_of(b: &[u8]) -> CardB
    ensures { result ≡ card_in b.now }
{
    CardB {
        pupi: kept::bytes_at(b, 4),
        afi: kept::at(b, 2),
        markers: kept::at(b, 3) == 1,
        application: kept::bytes_at(b, 8),
        protocol: kept::bytes_at(b, 12),
        state: state_in(kept::at(b, 0), kept::at(b, 1)),
    }
}

// The number that a call gives: so many bits to send, or minus a refusal's number.
pub fn taken_number(a: Result<Option<usize>, Refusal>) -> usize
    ensures { result ≡ taken_number a }
{
    match a {
        Ok(sent) => sent.unwrap_or(0),
        Err(e) => kept::refused(e),
    }
}

pub fn taken_refuses(a: Result<Option<usize>, Refusal>) -> bool
    ensures { result ≡ taken_refuses a }
{
    a.is_err()
}
