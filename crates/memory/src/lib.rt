// Document 02, T-14: the reader of a sweep that remembers, by value. It stands over the plain reader (crate reader): what is heard, the refusals and
// the frames are that reader's; beside it stands a path, which has the branches not yet taken.
#![tactic(auto)]

mod level;
mod paths;
pub mod within;

ghost use Rattle.std.specs.Prelude.{◌≡◌, true, length};
ghost use Rattle.reader.specs.Calls.{Completed, begin_says, row_after, turn_says};
ghost use Rattle.memory.specs.Calls.{refused, start_call, hear_call, hear_says};

use reader::{Answer, Reader, Turn};
use refusal::Refusal;

// The path, in the first `known` places of the row; zeros stand behind it.
// Kept: a row and its length, as C keeps it (crate kept_memory) and since the core has fixed memory.
#[derive(Clone, Copy)]
pub struct Path {
    pub row: [u8; 120],
    pub known: usize,
}

// The reader's turn, and the path. The next row goes to `hear` with this turn's reader and this path.
#[derive(Clone, Copy)]
pub struct Memory {
    pub turn: Turn,
    pub path: Path,
}

fn declines(r: Reader, p: Path, e: Refusal) -> Memory
    ensures { result ≡ refused r p e }
{
    Memory {
        turn: Turn {
            reader: r,
            answer: Answer::Declines(e),
        },
        path: p,
    }
}

// The host wants every idle card, one after the other, in few frames: REQA goes out. The lent row has room for 81 bits.
pub fn start_sweep(r: Reader, out: &mut [u8]) -> Memory
    ensures value { result ≡ start_call r (length out.old) }
    ensures out_after { out.new ≡ row_after result.turn out.old }
    ensures turn_value { turn_says result.turn ≡ begin_says true r (length out.old) }
{
    Memory {
        turn: reader::start_sweep(r, out),
        path: paths::empty(),
    }
}

// The reader hears a row, an empty one for silence. Its next frame, if there is one, stands at the front of the lent row. A UID that it
// completes is valid, whatever was heard.
pub fn hear(r: Reader, p: Path, row: &[u8], out: &mut [u8]) -> Memory
    ensures value { result ≡ hear_call r p row.now (length out.old) }
    ensures out_after { out.new ≡ row_after result.turn out.old }
    ensures turn_value { turn_says result.turn ≡ hear_says r p row.now (length out.old) }
    ensures completed { Completed result.turn.answer result.turn.reader }
{
    if !reader::is_awaiting(r.phase) {
        return declines(r, p, Refusal::NotDue);
    }
    if out.len() < limits::FRAME_ROOM {
        return declines(r, p, Refusal::Room);
    }
    let m = within::hear_rules(r, p, row);
    reader::within::put_sent(m.turn, out);
    m
}
