// The path on values: its newest branch, and what an answer to ANTICOLLISION adds to it.
ghost use Rattle.std.specs.Prelude.{◌≡◌, ℕ, [], ◌++◌, ◌+◌, ◌*◌, ◌≤◌, ◌<◌, min, length, take, slice_index, None, IfSome};
ghost use Rattle.uid.specs.Uid.{place};
ghost use Rattle.memory.specs.Memory.{branch, learnt};
ghost use Rattle.memory.specs.Stored.{path_of, stored, Branched, is_collided, Marked, Kept};

use crate::Path;
use reader::Reader;
use selection::{Rest, RestSays};
use uid::Level;

// A path that fits its array, zeros behind it. What firmware hands in may be any other.
#[derive(Clone, Copy)]
pub struct KeptPath {
    pub path: Path,
    ghost kept: { Kept path },
}

// Nothing is remembered.
pub fn empty() -> Path
    ensures { result ≡ stored [] }
{
    Path {
        row: [0u8; 120],
        known: 0,
    }
}

// A path as it is kept: at most 120 bits, zeros behind them.
pub fn tidy(p: Path) -> KeptPath
    ensures { result.path ≡ stored (path_of p) }
{
    let known = p.known.min(120);
    let mut row = [0u8; 120];
    rows::within::put(&mut row, 0, &p.row[..known]);
    let path = Path { row, known };
    KeptPath { path }
}

// Where the last 2 of a path is.
fn last_collided(path: &[u8]) -> Option<usize>
    ensures none { result ≡ None → (k : ℕ) → k < length path.now → slice_index path.now k ≤ 1 }
    ensures some { IfSome result (λ i. (i < length path.now) × (1 < slice_index path.now i) × ((k : ℕ) → i < k → k < length path.now → slice_index path.now k ≤ 1)) }
{
    path.iter().rposition(|x| *x > 1)
}

// How many bits the newest branch of a path has: up to its last 2, or none.
fn branch_bits(path: &[u8]) -> usize
    ensures { Branched path.now (length path.now) result }
{
    match last_collided(path) {
        Some(i) => i + 1,
        None => 0,
    }
}

// The newest branch of a path.
pub fn take_branch(t: KeptPath) -> KeptPath
    ensures { result.path ≡ stored (branch (path_of t.path)) }
{
    let p = t.path;
    let known = branch_bits(&p.row[..p.known]);
    let mut row = [0u8; 120];
    rows::within::put(&mut row, 0, &p.row[..known.saturating_sub(1)]);
    let path = Path { row, known };
    KeptPath { path }
}

// The first n bits of a path, and a row behind them.
fn joined(t: KeptPath, n: usize, s: &[u8]) -> KeptPath
    requires { min n t.path.known + length s.now ≤ 120 }
    ensures { result.path ≡ stored (take n (path_of t.path) ++ s.now) }
{
    let p = t.path;
    let m = n.min(p.known);
    let mut row = [0u8; 120];
    rows::within::put(&mut row, 0, &p.row[..m]);
    rows::within::put(&mut row, m, s);
    let path = Path {
        row,
        known: m + s.len(),
    };
    KeptPath { path }
}

fn is_collided(s: RestSays) -> bool
    ensures { result ≡ is_collided s }
{
    matches!(s, RestSays::Collided)
}

// The bits of a level as an answer gives them, of which the first top are known: a 2 where the last of these was put against a 0.
fn marked_bits(x: Rest, top: usize) -> [u8; 40]
    requires { top ≤ 40 }
    ensures { Marked x top result }
{
    let mut d = [0u8; 40];
    uid::within::put_level(&mut d, 0, x.five);
    if is_collided(x.says) && 0 < top {
        d[top - 1] = 2;
    }
    d
}

// The path after an answer to ANTICOLLISION of level l.
pub fn learns(l: Level, r: Reader, x: Rest, t: KeptPath) -> KeptPath
    ensures { result.path ≡ stored (take (40 * place l + r.known) (path_of t.path) ++ learnt r x) }
{
    let k = r.known as usize;
    let n = 40 * selection::numbers::place(l) + k;
    let top = (x.known as usize).min(40);
    let d = marked_bits(x, top);
    joined(t, n, &d[k.min(top)..top])
}
