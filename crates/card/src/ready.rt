// A card in Ready, or woken in Ready*: ANTICOLLISION and SELECT of its level.
ghost use Rattle.std.specs.Prelude.{◌≡◌, ◌≤◌, ◌<◌, length};
ghost use Rattle.rows.specs.Rows.{overlay};
ghost use Rattle.selection.specs.Selection.{others, sak_frame};
ghost use Rattle.card.specs.Card.{ready_in, remain, sak, chosen, up, ready, rules};
ghost use Rattle.card.specs.Calls.{taken};

use crate::{Card, CardState, Taken, answer, anticollision, woken};
use uid::Level;

// Do levels remain after level l?
fn remains(c: Card, l: Level) -> bool
    ensures { result ≡ remain c l }
{
    selection::numbers::place(l) + 1 < uid::level_count(c.uid.size)
}

fn sak_of(c: Card, l: Level) -> u8
    ensures { result ≡ sak c l }
{
    if remains(c, l) {
        0x04
    } else if c.blocks {
        0x20
    } else {
        0x00
    }
}

fn next_level(l: Level) -> Level
    ensures { result ≡ up l }
{
    match l {
        Level::One => Level::Two,
        Level::Two | Level::Three => Level::Three,
    }
}

fn chosen(c: Card, woken: bool, l: Level) -> CardState
    ensures { result ≡ chosen c woken l }
{
    if remains(c, l) {
        woken::ready_in(woken, next_level(l))
    } else {
        woken::active_in(woken)
    }
}

// The rest of the level, of which k bits were sent.
fn send_rest(c: Card, woken: bool, l: Level, k: u8, five: [u8; 5], out: &mut [u8]) -> Taken
    requires { (k < 40) × (45 ≤ length out.old) }
    ensures value { result ≡ taken c (ready_in woken l, others k five) }
    ensures out_after { out.new ≡ overlay out.old 0 (others k five) }
{
    let rest = selection::numbers::cut(k);
    answer::send(
        c,
        woken::ready_in(woken, l),
        &selection::sent::level_row(five)[rest..],
        out,
    )
}

// Level l is chosen.
fn send_sak(c: Card, woken: bool, l: Level, out: &mut [u8]) -> Taken
    requires { 45 ≤ length out.old }
    ensures value { result ≡ taken c (chosen c woken l, sak_frame (sak c l)) }
    ensures out_after { out.new ≡ overlay out.old 0 (sak_frame (sak c l)) }
{
    answer::send(
        c,
        chosen(c, woken, l),
        &selection::sent::sak_frame(sak_of(c, l)),
        out,
    )
}

// Ready at level l, whose bytes are five.
fn ready_at(c: Card, woken: bool, l: Level, five: [u8; 5], row: &[u8], out: &mut [u8]) -> Taken
    requires { 45 ≤ length out.old }
    ensures value { result ≡ taken c (ready c woken l five row.now) }
    ensures out_after { out.new ≡ overlay out.old 0 (ready c woken l five row.now).1 }
{
    if anticollision::is_matching(row, l, five) {
        let k = anticollision::bits_sent(row.len());
        return send_rest(c, woken, l, k as u8, five, out);
    }
    if rows::is_same(row, &selection::sent::select(l, five)) {
        return send_sak(c, woken, l, out);
    }
    answer::silent(c, woken::home(woken))
}

// A card that is Ready at a level which its UID lacks matches nothing.
pub fn take_ready(c: Card, woken: bool, l: Level, row: &[u8], out: &mut [u8]) -> Taken
    requires { 45 ≤ length out.old }
    ensures value { result ≡ taken c (rules c (ready_in woken l) row.now) }
    ensures out_after { out.new ≡ overlay out.old 0 (rules c (ready_in woken l) row.now).1 }
{
    let i = selection::numbers::place(l);
    if i >= uid::level_count(c.uid.size) {
        return answer::silent(c, woken::home(woken));
    }
    ready_at(c, woken, l, uid::levels(c.uid)[i], row, out)
}
