// The lines that set a profile: `floor F`, `peak F`, `gate off`, `gate level F`, `gate share F`.
use crate::numbers;
use bench_talk::LineError;
use front::{Gate, Profile};
use std::alloc::Global;

// At the start floor and peak are 0 and the gate is off.
pub fn start() -> Profile {
    Profile {
        floor: 0.0,
        peak: 0.0,
        gate: Gate::Off,
    }
}

// The profile after a line of these words.
pub fn profile_line(
    alloc: Global,
    profile: Profile,
    words: &[&[u8]],
) -> Result<Profile, LineError> {
    match words {
        [b"floor", floor] => Ok(Profile {
            floor: number(alloc, floor)?,
            ..profile
        }),
        [b"peak", peak] => Ok(Profile {
            peak: number(alloc, peak)?,
            ..profile
        }),
        [b"gate", gate @ ..] => Ok(Profile {
            gate: gate_words(alloc, gate)?,
            ..profile
        }),
        _ => Err(LineError::NotUnderstood),
    }
}

fn gate_words(alloc: Global, words: &[&[u8]]) -> Result<Gate, LineError> {
    match words {
        [b"off"] => Ok(Gate::Off),
        [b"level", level] => Ok(Gate::Level(number(alloc, level)?)),
        [b"share", share] => Ok(Gate::Share(number(alloc, share)?)),
        _ => Err(LineError::NotUnderstood),
    }
}

// A word that is one number.
fn number(alloc: Global, word: &[u8]) -> Result<f32, LineError> {
    match numbers::read_numbers(alloc, word)?.as_slice() {
        [number] => Ok(*number),
        _ => Err(LineError::NotUnderstood),
    }
}
