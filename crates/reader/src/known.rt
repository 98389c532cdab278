// T-03: one known card, by its UID: WUPA, then SELECT level by level, without ANTICOLLISION. Called by our own crates only.
ghost use Rattle.std.specs.Prelude.{◌≡◌, Ok};
ghost use Rattle.reader.specs.Reader.{wakes, picks, pick_next, after_wupa, hear_wupa, misfits, uid_sak_heard, hear_uid_sak};
ghost use Rattle.reader.specs.Calls.{wake_turn};

use crate::{Answer, Phase, Reader, Turn, within};
use refusal::Refusal;
use uid::{Level, Uid};

// WUPA goes out.
pub fn wakes(u: Uid) -> Turn
    ensures { result ≡ wakes u }
{
    within::sends(Reader {
        uid: u,
        ..within::blank(Phase::WupaSent, false)
    })
}

// The call on a reader that is new: 6 where the bytes are no valid UID, and nothing changes.
pub fn wake_turn(r: Reader, bytes: &[u8]) -> Turn
    ensures { result ≡ wake_turn r bytes.now }
{
    match uid::new_uid(bytes) {
        Ok(u) => wakes(u),
        Err(_) => Turn {
            reader: r,
            answer: Answer::Declines(Refusal::Argument),
        },
    }
}

// SELECT of level l of the UID.
fn picks(l: Level, u: Uid) -> Turn
    ensures { result ≡ picks l u }
{
    within::sends(Reader {
        five: uid::levels(u)[selection::numbers::place(l)],
        known: 40,
        uid: u,
        ..within::blank(Phase::UidSelectSent(l), false)
    })
}

pub fn hear_wupa(r: Reader, row: &[u8]) -> Turn
    ensures { result ≡ hear_wupa r row.now }
{
    match selection::heard::read_atqa(row) {
        Ok(()) => picks(Level::One, r.uid),
        Err(e) => within::stop(e),
    }
}

// Does b3 of a SAK not fit the UID? It is set exactly if level l is not the last. Only a reader put together by hand holds a UID that is not valid.
fn misfits(l: Level, u: Uid, more: bool) -> bool
    ensures { result ≡ misfits l u more }
{
    if !uid::is_valid(u) {
        return true;
    }
    if selection::numbers::place(l) + 1 < uid::level_count(u.size) {
        return !more;
    }
    more
}

// SELECT of the level after l.
fn pick_next(l: Level, u: Uid) -> Turn
    ensures { result ≡ pick_next l u }
{
    match l {
        Level::One => picks(Level::Two, u),
        Level::Two => picks(Level::Three, u),
        Level::Three => within::stop(Refusal::Forbidden),
    }
}

// A good SAK b.
fn uid_sak_heard(l: Level, u: Uid, b: u8) -> Turn
    ensures { result ≡ uid_sak_heard l u (Ok b) }
{
    let more = b / 4 % 2 == 1;
    if misfits(l, u, more) {
        return within::stop(Refusal::Forbidden);
    }
    if more {
        return pick_next(l, u);
    }
    within::completes(false, u, b)
}

pub fn hear_uid_sak(l: Level, r: Reader, row: &[u8]) -> Turn
    ensures { result ≡ hear_uid_sak l r row.now }
{
    match selection::heard::read_sak(row) {
        Ok(b) => uid_sak_heard(l, r.uid, b),
        Err(e) => within::stop(e),
    }
}
