// The rules of the reader that remembers, on values. Called by our own crates only: firmware calls `start_sweep` and `hear`.
ghost use Rattle.std.specs.Prelude.{◌≡◌, Bool, true, false, [], ◌++◌, ◌+◌, ◌*◌, take};
ghost use Rattle.uid.specs.Uid.{place};
ghost use Rattle.selection.specs.Heard.{read_rest};
ghost use Rattle.reader.specs.Reader.{blank, sends};
ghost use Rattle.reader.specs.declared.Phase.TheVariants.{ReqaSent};
ghost use Rattle.memory.specs.Memory.{recall, learnt, enters_by, keeps, higher, comes, stays, hear, hear_if};
ghost use Rattle.memory.specs.Stored.{path_of, stored, is_sends, is_on, memory_of};

use crate::level::enters;
pub use crate::paths::empty;
use crate::paths::{KeptPath, learns, take_branch, tidy};
use crate::{Memory, Path};
use reader::{Answer, Phase, Reader, Turn};
use uid::Level;

// A sweep begins: REQA is out, and nothing is remembered.
pub fn fresh() -> Memory
    ensures { result ≡ memory_of (recall (sends (blank ReqaSent true)) []) }
{
    Memory {
        turn: reader::within::sends(reader::within::blank(Phase::ReqaSent, true)),
        path: empty(),
    }
}

// Does the reader send a frame, its UID not yet complete?
fn is_sending(a: Answer) -> bool
    ensures { result ≡ is_sends a }
{
    matches!(a, Answer::Sends(_))
}

// Does the sweep go on?
fn is_on(a: Answer) -> bool
    ensures { result ≡ is_on a }
{
    matches!(a, Answer::Sends(_) | Answer::Finds(_))
}

// The path after an answer: nothing is remembered where the sweep ends.
fn keeps(a: Answer, p: KeptPath) -> Path
    ensures { result ≡ stored (keeps a (path_of p.path)) }
{
    if is_on(a) { p.path } else { empty() }
}

// Level l comes next where the plain reader opens it.
fn enters_by(a: Answer, l: Level, t: Turn, p: KeptPath) -> Turn
    ensures { result ≡ enters_by a l t (path_of p.path) }
{
    if is_sending(a) {
        enters(l, t.reader, p)
    } else {
        t
    }
}

fn higher(l: Level) -> Level
    ensures { result ≡ higher l }
{
    match l {
        Level::One => Level::Two,
        _ => Level::Three,
    }
}

// The plain reader's turn, and the path.
fn stays(t: Turn, p: KeptPath) -> Memory
    ensures { result ≡ memory_of (stays t (path_of p.path)) }
{
    Memory {
        turn: t,
        path: keeps(t.answer, p),
    }
}

// Level l comes next, if the sweep goes on.
fn comes(l: Level, t: Turn, p: KeptPath) -> Memory
    ensures { result ≡ memory_of (comes l t (path_of p.path)) }
{
    Memory {
        turn: enters_by(t.answer, l, t, p),
        path: keeps(t.answer, p),
    }
}

// No row is awaited of this reader in a sweep: the path stays.
fn unchanged(t: Turn, p: KeptPath) -> Memory
    ensures { result ≡ memory_of (recall t (path_of p.path)) }
{
    Memory {
        turn: t,
        path: p.path,
    }
}

// The answer to ANTICOLLISION of level l, t being the plain reader's turn.
fn hear_rest(l: Level, r: Reader, p: KeptPath, t: Turn, row: &[u8]) -> Memory
    ensures { result ≡ memory_of (stays t (take (40 * place l + r.known) (path_of p.path) ++ learnt r (read_rest r.known r.five row.now))) }
{
    let x = selection::heard::read_rest(r.known, r.five, row);
    stays(t, learns(l, r, x, p))
}

// What the reader does with a row, by the frame that it sent last; the path is tidy.
fn hear_kept(r: Reader, p: KeptPath, row: &[u8]) -> Memory
    ensures { result ≡ memory_of (hear r (path_of p.path) row.now) }
{
    let t = reader::within::hear_rules(r, row);
    match r.phase {
        Phase::ReqaSent => comes(Level::One, t, take_branch(p)),
        Phase::AnticollisionSent(l) => hear_rest(l, r, p, t, row),
        Phase::SelectSent(l) => comes(higher(l), t, p),
        Phase::HltaSent => stays(t, p),
        _ => unchanged(t, p),
    }
}

// .. and with any path.
pub fn hear_rules(r: Reader, p: Path, row: &[u8]) -> Memory
    ensures { result ≡ memory_of (hear r (path_of p) row.now) }
{
    hear_kept(r, tidy(p), row)
}

// The plain reader's turn: nothing is remembered.
fn without_path(r: Reader, row: &[u8]) -> Memory
    ensures { result ≡ memory_of (hear_if false r [] row.now) }
{
    Memory {
        turn: reader::within::hear_rules(r, row),
        path: empty(),
    }
}

// What the reader of a sweep does with a row: of one that remembers, or of the plain one, which has no path.
pub trait Hears {
    ghost remembers: { Bool };

    fn hear(r: Reader, p: Path, row: &[u8]) -> Memory
        ensures { result ≡ memory_of (hear_if remembers r (path_of p) row.now) };
}

pub struct Plain;

impl Hears for Plain {
    ghost remembers = { false };

    fn hear(r: Reader, p: Path, row: &[u8]) -> Memory {
        without_path(r, row)
    }
}

pub struct Remembering;

impl Hears for Remembering {
    ghost remembers = { true };

    fn hear(r: Reader, p: Path, row: &[u8]) -> Memory {
        hear_rules(r, p, row)
    }
}
