// The link of a reader kept in lent bytes: its end of the block protocol.
ghost use Rattle.std.specs.Prelude.{◌≡◌};
ghost use Rattle.reader_link.specs.declared.Link.TheVariants.{Linked};
ghost use Rattle.kept_reader.specs.KeptReader.{Sized, turn_tag, turn_of, link_phase_tag, link_phase_turn, link_phase_of, linked_bytes, link_bytes, linked_of, link_in, link_of};

use reader_blocks::{ReaderLink, ReaderPhase, Turn};
use reader_link::Link;

// Kept: the numbers in the lent bytes are the C interface, and any byte is read: the definitions of the state name them.
fn turn_tag(t: Turn) -> u8
    ensures { result ≡ turn_tag t }
{
    match t {
        Turn::Sending => 0,
        Turn::Awaiting => 1,
        Turn::Joining => 2,
    }
}

// Kept: the numbers in the lent bytes are the C interface, and any byte is read: the definitions of the state name them.
fn turn_of(b: u8) -> Turn
    ensures { result ≡ turn_of b }
{
    match b {
        0 => Turn::Sending,
        1 => Turn::Awaiting,
        _ => Turn::Joining,
    }
}

// Kept: the numbers in the lent bytes are the C interface, and any byte is read: the definitions of the state name them.
fn link_phase_tag(p: ReaderPhase) -> u8
    ensures { result ≡ link_phase_tag p }
{
    match p {
        ReaderPhase::Open => 0,
        ReaderPhase::Talking(_) => 1,
        ReaderPhase::Leaving => 2,
        ReaderPhase::Finished => 3,
        ReaderPhase::Stopped => 4,
    }
}

fn link_phase_turn(p: ReaderPhase) -> u8
    ensures { result ≡ link_phase_turn p }
{
    match p {
        ReaderPhase::Talking(t) => turn_tag(t),
        _ => 0,
    }
}

// Kept: the numbers in the lent bytes are the C interface, and any byte is read: the definitions of the state name them.
fn link_phase_of(t: u8, u: u8) -> ReaderPhase
    ensures { result ≡ link_phase_of t u }
{
    match t {
        0 => ReaderPhase::Open,
        1 => ReaderPhase::Talking(turn_of(u)),
        2 => ReaderPhase::Leaving,
        3 => ReaderPhase::Finished,
        _ => ReaderPhase::Stopped,
    }
}

fn linked_bytes(l: ReaderLink) -> [u8; 24]
    ensures value { result ≡ linked_bytes l }
    ensures sized { Sized (Linked l) }
{
    let number = kept::flag(l.number);
    let tag = link_phase_tag(l.phase);
    let turn = link_phase_turn(l.phase);
    let a = kept::word(l.at);
    let j = kept::word(l.joined);
    [
        2, l.own, l.card, number, tag, turn, l.again, l.repeats, a[0], a[1], a[2], a[3], a[4],
        a[5], a[6], a[7], j[0], j[1], j[2], j[3], j[4], j[5], j[6], j[7],
    ]
}

// A reader's link, as bytes.
pub fn link_bytes(k: Link) -> [u8; 24]
    ensures value { result ≡ link_bytes k }
    ensures sized { Sized k }
{
    match k {
        Link::NoLink => [0u8; 24],
        Link::RatsSent(i) => [
            1, i, 0, 0, 0, 0, 0, 0, 0, 0, 0, 0, 0, 0, 0, 0, 0, 0, 0, 0, 0, 0, 0, 0,
        ],
        Link::Linked(l) => linked_bytes(l),
    }
}

fn linked_of(b: &[u8]) -> ReaderLink
    ensures { result ≡ linked_of b.now }
{
    ReaderLink {
        own: kept::at(b, 22),
        card: kept::at(b, 23),
        number: kept::at(b, 24) == 1,
        phase: link_phase_of(kept::at(b, 25), kept::at(b, 26)),
        at: kept::number_at(b, 29),
        joined: kept::number_at(b, 37),
        again: kept::at(b, 27),
        repeats: kept::at(b, 28),
    }
}

fn link_in(t: u8, own: u8, l: ReaderLink) -> Link
    ensures { result ≡ link_in t own l }
{
    // Kept: the numbers in the lent bytes are the C interface, and any byte is read: the definitions of the state name them.
    match t {
        0 => Link::NoLink,
        1 => Link::RatsSent(own),
        _ => Link::Linked(l),
    }
}

pub fn link_of(b: &[u8]) -> Link
    ensures { result ≡ link_of b.now }
{
    link_in(kept::at(b, 21), kept::at(b, 22), linked_of(b))
}
