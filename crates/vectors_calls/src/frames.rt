// Frames written and read, and a UID's on-air row, with so much room.
use crate::answers::{counted, lent};
use bench_talk::LineError;
use refusal::Refusal;
use std::alloc::Global;

// A frame of so many zeros, 300 at most.
pub fn write<W: Fn(&[u8], &mut [u8]) -> Result<usize, Refusal>>(
    alloc: Global,
    room: usize,
    bytes: usize,
    write: W,
) -> Result<String, LineError>
    requires { W.IsAlwaysCallable write }
{
    let bytes = lent(alloc, 0, bytes, 300)?;
    let mut row = lent(alloc, 0, room, 2718)?;
    counted(alloc, "bits", write(bytes.as_slice(), row.as_mut_slice()))
}

// REQA.
pub fn write_short(alloc: Global, room: usize) -> Result<String, LineError> {
    let mut row = lent(alloc, 0, room, 7)?;
    counted(alloc, "bits", frame::write_short(0x26, row.as_mut_slice()))
}

// HLTA is read.
pub fn read<R: Fn(&[u8], &mut [u8]) -> Result<usize, Refusal>>(
    alloc: Global,
    room: usize,
    read: R,
) -> Result<String, LineError>
    requires { R.IsAlwaysCallable read }
{
    let mut bytes = lent(alloc, 0, room, limits::MOST_BYTES)?;
    counted(
        alloc,
        "bytes",
        read(&selection::sent::hlta(), bytes.as_mut_slice()),
    )
}

pub fn air_row(alloc: Global, room: usize) -> Result<String, LineError> {
    let mut row = lent(alloc, 0, room, 120)?;
    counted(alloc, "bits", put_air_row(row.as_mut_slice()))
}

fn put_air_row(out: &mut [u8]) -> Result<usize, Refusal> {
    let uid = uid::new_uid(&[1, 2, 3, 4])?;
    uid::air_row(uid, out)
}
