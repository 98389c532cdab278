// The front end that is played, and its lines.
ghost use Rattle.std.specs.Prelude.{◌≤◌, ◌<◌, length};

use bench_lines::{number_to, tick_word};
use bench_talk::{LineError, Program};
use bench_text::Row;
use front::Profile;
use std::alloc::{AllocError, Global};
use std::fmt;

// A place in which nothing was written.
// Kept: what stands in a place, and the number of no kind.
const UNWRITTEN: u8 = 255;

// The profile, and the places of the room.
#[derive(Drop)]
pub struct Played {
    profile: Profile,
    places: Vec<u8>,
}

// The places of a room: `0`, `1`, `x` for a collided bit, `.` where nothing was written yet; `-` for a room of 0.
#[derive(Clone, Copy)]
struct Places<'a>(&'a [u8]);

impl fmt::Display for Places<'_> {
    fn fmt<W: fmt::Write>(&self, f: &mut fmt::Formatter<W>) -> fmt::Result {
        if self.0.is_empty() {
            return f.write_str("-");
        }
        for piece in self.0.chunks(64) {
            write_signs(f, piece)?;
        }
        Ok(())
    }
}

// The sign of a place.
// Kept: this is the Display of a place.
fn sign(place: u8) -> u8
    ensures { result < 128 }
{
    match place {
        0 => b'0',
        1 => b'1',
        2 => b'x',
        _ => b'.',
    }
}

// The signs of a piece of the room in one write: a write for each costs several times as much.
fn write_signs<W: fmt::Write>(f: &mut fmt::Formatter<W>, places: &[u8]) -> fmt::Result
    requires { length places.now ≤ 64 }
{
    let mut signs = [0; 64];
    for (i, place) in places.iter().enumerate() {
        signs[i] = sign(*place);
    }
    f.write_str(bench_text::within::ascii(&signs[..places.len()]))
}

impl Played {
    pub fn new(alloc: Global) -> Result<Self, AllocError> {
        Ok(Played {
            profile: bench_energies::start(),
            places: vec![in alloc; UNWRITTEN; 4096]?,
        })
    }

    // `room N`, 0 to 4096: a new room
    fn room(&mut self, alloc: Global, size: &[u8]) -> Result<String, LineError> {
        let n = number_to(size, 4096)?;
        self.places = vec![in alloc; UNWRITTEN; n]?;
        Ok(format!(in alloc; "room {n}")?)
    }

    // `halves HALVES`: `row ROW` or `refused N`
    fn halves(&mut self, alloc: Global, halves: &[u8]) -> Result<String, LineError> {
        let halves = bench_energies::read_numbers(alloc, halves)?;
        let heard = front::receive(self.profile, halves.as_slice(), self.places.as_mut_slice());
        match heard {
            Ok(n) => {
                let row = Row(bench::front(self.places.as_slice(), n));
                Ok(format!(in alloc; "row {row}")?)
            }
            Err(_) => { Ok(format!(in alloc; "refused {}", front::number(heard))?) }
        }
    }
}

impl Program for Played {
    fn answer(&mut self, alloc: Global, words: &[&[u8]]) -> Result<String, LineError> {
        match words {
            [b"room", size] => self.room(alloc, size),
            [b"halves", halves] => self.halves(alloc, halves),
            [b"places"] => {
                let places = Places(self.places.as_slice());
                Ok(format!(in alloc; "places {places}")?)
            }
            [b"delay", row, sent, heard] => delay(alloc, row, sent, heard),
            _ => {
                self.profile = bench_energies::profile_line(alloc, self.profile, words)?;
                Ok(format!(in alloc; "ok")?)
            }
        }
    }
}

// T-09: `delay ROW T1 T2`: `off N` or `refused 14`
fn delay(alloc: Global, row: &[u8], sent: &[u8], heard: &[u8]) -> Result<String, LineError> {
    let row = bench_lines::bits(alloc, row, 8192)?;
    let judged = delay::judge_row(row.as_slice(), tick_word(sent)?, tick_word(heard)?);
    Ok(match judged {
        Ok(n) => format!(in alloc; "off {n}")?,
        Err(_) => format!(in alloc; "refused {}", delay::number(judged))?,
    })
}
