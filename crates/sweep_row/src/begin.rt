// What a sweep over a row is before its first frame, and the whole of it where the row is empty.
ghost use Rattle.std.specs.Prelude.{◌≡◌, [], ◌≤◌, length};
ghost use Rattle.rows.specs.Rows.{overlay};
ghost use Rattle.air_log.specs.Log.{log_bytes, log_size, list_bytes};
ghost use Rattle.sweep_steps.specs.Loop.{swept_if};
ghost use Rattle.sweep_row.specs.Row.{refused_row, first_row, end_row};

use crate::RowSwept;
use crate::finish::RowReached;
use limits::MOST_CARDS;
use memory::within::Hears;
use reader::{Answer, Reader};
use refusal::Refusal;

// Declined before a frame is sent.
pub fn refused(r: Reader, e: Refusal) -> RowSwept
    ensures { result ≡ refused_row r e }
{
    RowSwept {
        reader: r,
        answer: Answer::Declines(e),
        frames: 0,
        logged: 0,
        found: 0,
    }
}

// REQA is out.
pub fn first() -> RowReached
    ensures { result ≡ first_row }
{
    let m = memory::within::fresh();
    RowReached {
        swept: RowSwept {
            reader: m.turn.reader,
            answer: m.turn.answer,
            frames: 0,
            logged: 0,
            found: 0,
        },
        path: m.path,
    }
}

// The sweep over an empty row: REQA and silence.
pub fn empty<H: Hears>(tick: u32, log: &mut [u8], list: &mut [u8]) -> RowSwept
    requires { (log_size (swept_if H.remembers []).exchanges ≤ length log.old) × (length (list_bytes (swept_if H.remembers []).found) ≤ length list.old) }
    ensures value { result ≡ end_row (swept_if H.remembers []) }
    ensures log_after { log.new ≡ overlay log.old 0 (log_bytes tick (swept_if H.remembers []).exchanges) }
    ensures list_after { list.new ≡ overlay list.old 0 (list_bytes (swept_if H.remembers []).found) }
{
    let p = sweep_steps::within::run::<H>(
        [sweep_steps::within::no_card(); MOST_CARDS],
        0,
        tick,
        log,
        list,
    );
    RowSwept {
        reader: p.memory.turn.reader,
        answer: p.memory.turn.answer,
        frames: p.frames,
        logged: p.logged,
        found: p.found,
    }
}
