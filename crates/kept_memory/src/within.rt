// Functions that only crates of this repository call: each has a condition, and its callers' proofs show that they meet it.
ghost use Rattle.std.specs.Prelude.{◌≡◌, ◌≤◌, length};
ghost use Rattle.rows.specs.Rows.{overlay};
ghost use Rattle.kept_reader.specs.KeptReader.{selection_of, selection_number};
ghost use Rattle.kept_memory.specs.KeptMemory.{memory_size, path_in, memory_bytes, memory_left, memory_in, memory_of, memory_after};

use memory::{Memory, Path};
use reader::Reader;

// The path that lent bytes say.
pub fn path_of(b: &[u8]) -> Path
    requires { memory_size ≤ length b.now }
    ensures { result ≡ path_in b.now }
{
    let mut row = [0u8; 120];
    rows::within::put(&mut row, 0, &b[72..192]);
    Path {
        row,
        known: kept::number_at(b, 64),
    }
}

// Writes what comes of a call into lent bytes.
fn keep(m: Memory, state: &mut [u8])
    requires { memory_size ≤ length state.old }
    ensures state_after { state.new ≡ overlay state.old 0 (memory_bytes m) }
    ensures state_after_2 { memory_in state.new ≡ memory_of m }
{
    let selection = kept_reader::select::selection_bytes(m.turn.reader);
    let told = crate::told_bytes(m.turn.answer);
    let path = crate::path_bytes(m.path);
    rows::within::put(state, 0, &selection);
    rows::within::put(state, 21, &told);
    rows::within::put(state, 64, &path);
}

// Keeps what comes of a call on the reader r with the path p, which lent bytes say, and gives the call's number. A call that is refused and
// leaves both what they were writes nothing. Else the bytes say the reader and the path then, and what else was answered.
pub fn settle(r: Reader, p: Path, m: Memory, state: &mut [u8]) -> usize
    requires { (memory_size ≤ length state.old) × (r ≡ selection_of state.old) × (p ≡ path_in state.old) }
    ensures value { result ≡ selection_number m.turn.answer }
    ensures state_after { state.new ≡ memory_left state.old m }
    ensures state_after_2 { memory_in state.new ≡ memory_after state.old m }
{
    if !crate::stays(r, p, m) {
        keep(m, state);
    }
    kept_reader::selection_number(m.turn.answer)
}
