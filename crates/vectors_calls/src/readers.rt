// The reader of crate reader, selection alone, with so much room.
use crate::answers::{counted, lent};
use bench_talk::LineError;
use limits::FRAME_ROOM;
use reader::{Answer, Reader, Turn};
use std::alloc::Global;

// The row of the ATQA that it hears.
pub const ATQA: [u8; 18] = [0, 0, 1, 0, 0, 0, 0, 0, 0, 0, 0, 0, 0, 0, 0, 0, 0, 1];

// A call of the reader, new where sent is 0, else with REQA out.
pub fn turn<C: FnOnce(Reader, &mut [u8]) -> Turn>(
    alloc: Global,
    room: usize,
    sent: usize,
    call: C,
) -> Result<String, LineError>
    requires { C.IsAlwaysCallable call }
{
    let mut row = lent(alloc, 0, room, FRAME_ROOM)?;
    let reader = if sent == 0 {
        reader::new_reader()
    } else {
        used()
    };
    let turn = call(reader, row.as_mut_slice());
    let bits = match turn.answer {
        Answer::Sends(n) | Answer::Finds(n) => Ok(n),
        Answer::Selects | Answer::Finishes => Ok(0),
        Answer::Declines(refusal) => Err(refusal),
    };
    counted(alloc, "bits", bits)
}

// A reader that has sent REQA.
pub fn used() -> Reader {
    let mut row = [0; FRAME_ROOM];
    reader::select(reader::new_reader(), &mut row).reader
}
