// A level comes next: the bits of it that the path has.
ghost use Rattle.std.specs.Prelude.{◌≡◌, true, cond, ◌-◌, ◌≤◌, min, length, take, drop, ltb};
ghost use Rattle.rows.specs.Rows.{clean, fill};
ghost use Rattle.frame.specs.Frame.{bytes_of};
ghost use Rattle.memory.specs.Memory.{bits, enters};
ghost use Rattle.memory.specs.Stored.{path_of};
ghost use Rattle.reader.specs.declared.Phase.TheVariants.{AnticollisionSent, SelectSent};

use crate::paths::KeptPath;
use reader::{Phase, Reader, Turn};
use uid::Level;

// A bit of the path, as it was sent.
fn sent_bit(x: u8) -> u8
    ensures { result ≡ cond (ltb 1 x) 1 x }
{
    x.min(1)
}

// How many bits of the level that begins at a place are known.
fn level_known(n: usize, at: usize) -> usize
    ensures { result ≡ min 40 (n - at) }
{
    n.saturating_sub(at).min(40)
}

// Those bits, zeros behind.
fn level_bits(t: KeptPath, at: usize) -> [u8; 40]
    requires { at ≤ 120 }
    ensures value { result ≡ fill 40 (take 40 (drop at (bits (path_of t.path)))) }
    ensures row_len { length t.path.row ≡ 120 }
{
    let p = t.path;
    let m = level_known(p.known, at);
    let mut e = [0u8; 40];
    for (i, x) in p.row[at..at + m].iter().enumerate() {
        e[i] = sent_bit(*x);
    }
    e
}

// The five bytes of 40 bits, none of them collided.
fn five_bytes(e: [u8; 40]) -> [u8; 5]
    requires { clean e ≡ true }
    ensures { result ≡ bytes_of 5 e }
{
    let a = parity::within::byte_at(&e, 0);
    let b = parity::within::byte_at(&e, 8);
    let c = parity::within::byte_at(&e, 16);
    let d = parity::within::byte_at(&e, 24);
    let f = parity::within::byte_at(&e, 32);
    [a, b, c, d, f]
}

// What a level begins with of which m bits are known: SELECT if those are all.
fn first_phase(l: Level, m: usize) -> Phase
    ensures { result ≡ cond (ltb m 40) (AnticollisionSent l) (SelectSent l) }
{
    if m < 40 {
        Phase::AnticollisionSent(l)
    } else {
        Phase::SelectSent(l)
    }
}

// Level l comes next: its known bits are sent at once.
pub fn enters(l: Level, r: Reader, t: KeptPath) -> Turn
    ensures { result ≡ enters l r (path_of t.path) }
{
    let at = 40 * selection::numbers::place(l);
    let m = level_known(t.path.known, at);
    reader::within::sends(Reader {
        phase: first_phase(l, m),
        five: five_bytes(level_bits(t, at)),
        known: m as u8,
        sak: 0,
        ..r
    })
}
