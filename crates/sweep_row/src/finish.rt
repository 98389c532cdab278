// The end of an exchange: every card has taken the reader's frame.
ghost use Rattle.std.specs.Prelude.{◌≡◌, ◌+◌, ◌*◌, ◌≤◌, ◌<◌, length};
ghost use Rattle.rows.specs.Rows.{overlay};
ghost use Rattle.air_log.specs.Log.{exchange_bytes, exchange_size, list_bytes};
ghost use Rattle.sweep_steps.specs.Steps.{found_by, tick_bound};
ghost use Rattle.sweep_row.specs.Row.{goes_on, exchanged_with, finished, Roomy, exchange_with, heard_by, row_tick};

use crate::RowSwept;
use crate::air::Air;
use crate::within::Progress;
use memory::within::Hears;
use memory::{Memory, Path};
use reader::Reader;

// The reader's turn and path after an exchange, and the bytes of log that it took.
#[derive(Clone, Copy)]
pub struct Exchanged {
    pub memory: Memory,
    pub bytes: usize,
}

// What a sweep gave so far, and the reader's path.
#[derive(Clone, Copy)]
pub struct RowReached {
    pub swept: RowSwept,
    pub path: Path,
}

// The records of the reader's frame and of what was heard, and what the reader does with it.
fn exchange<H: Hears>(
    r: Reader,
    path: Path,
    a: Air,
    log: &mut [u8],
    at: usize,
    tick: usize,
) -> Exchanged
    requires { (a.bits ≤ length a.heard) × (at + exchange_size (exchange_with r a) ≤ length log.old) × (tick < tick_bound) }
    ensures value { result ≡ exchanged_with H.remembers r path a }
    ensures log_after { log.new ≡ overlay log.old at (exchange_bytes tick (exchange_with r a)) }
{
    let mut frame = [0u8; 81];
    reader::within::put_frame(r, &mut frame);
    let bits = reader::within::frame_bits(r);
    let heard = &a.heard[..a.bits];
    Exchanged {
        bytes: sweep_steps::within::put_exchange(log, at, tick, &frame[..bits], heard),
        memory: H::hear(r, path, heard),
    }
}

// One exchange more in the log, and in the list the UID that it found.
pub fn finish<H: Hears>(p: Progress, a: Air, log: &mut [u8], list: &mut [u8]) -> RowReached
    requires { Roomy H.remembers p a log.old list.old }
    ensures value { result ≡ finished H.remembers p a }
    ensures log_after { log.new ≡ overlay log.old p.swept.logged (exchange_bytes (row_tick p) (exchange_with p.swept.reader a)) }
    ensures list_after { list.new ≡ overlay list.old (11 * p.swept.found) (list_bytes (found_by (heard_by H.remembers p a).turn)) }
{
    let s = p.swept;
    let tick = p.tick as usize + 2 * s.frames;
    let x = exchange::<H>(s.reader, p.path, a, log, s.logged, tick);
    let found = sweep_steps::within::put_found(x.memory.turn, list, 11 * s.found);
    RowReached {
        swept: RowSwept {
            reader: x.memory.turn.reader,
            answer: x.memory.turn.answer,
            frames: s.frames + 1,
            logged: s.logged + x.bytes,
            found: s.found + found,
        },
        path: x.memory.path,
    }
}

// Does the reader have a frame out, and may it send one more?
pub fn goes_on(s: RowSwept) -> bool
    ensures { result ≡ goes_on s }
{
    s.frames < limits::MOST_FRAMES && sweep_steps::within::goes(s.answer)
}
