// The front end and the reader behind it, and their lines.
use bench_lines::Refused;
use bench_talk::{LineError, Program};
use bench_text::{Hex, Row};
use front::Profile;
use reader::{Answer, Reader, Turn};
use std::alloc::Global;
use std::fmt;

#[derive(Drop)]
pub struct Chain {
    profile: Profile,
    reader: Reader,
}

// The UID and the last SAK that a reader has.
#[derive(Clone, Copy)]
struct Found(Reader);

impl fmt::Display for Found {
    fn fmt<W: fmt::Write>(&self, f: &mut fmt::Formatter<W>) -> fmt::Result {
        let uid = self.0.uid;
        let bytes = bench::front(&uid.bytes, uid::byte_count(uid.size));
        write!(f, "{} {}", Hex(bytes), Hex(&[self.0.sak]))
    }
}

impl Chain {
    // A new reader; floor and peak are 0 and the gate is off.
    pub fn new() -> Self {
        Chain {
            profile: bench_energies::start(),
            reader: reader::new_reader(),
        }
    }

    // What comes of a call or a row; what the reader sends stands at the front of the row.
    fn turned(&mut self, alloc: Global, turn: Turn, row: &[u8]) -> Result<String, LineError> {
        self.reader = turn.reader;
        let found = Found(turn.reader);
        match turn.answer {
            Answer::Sends(n) => Ok(format!(in alloc; "send {}", Row(bench::front(row, n)))?),
            Answer::Finds(n) => {
                Ok(format!(in alloc; "found {found} send {}", Row(bench::front(row, n)))?)
            }
            Answer::Selects => Ok(format!(in alloc; "selected {found}")?),
            Answer::Finishes => Ok(format!(in alloc; "finished")?),
            Answer::Declines(refusal) => Ok(format!(in alloc; "{}", Refused(refusal))?),
        }
    }

    // `halves HALVES`: the front end's row is what the reader hears.
    fn halves(&mut self, alloc: Global, halves: &[u8]) -> Result<String, LineError> {
        let halves = bench_energies::read_numbers(alloc, halves)?;
        let mut row = vec![in alloc; 0; halves.len() / 2]?;
        let heard = front::receive(self.profile, halves.as_slice(), row.as_mut_slice());
        match heard {
            Ok(n) => {
                let mut sent = [0; limits::FRAME_ROOM];
                let turn = reader::hear(self.reader, bench::front(row.as_slice(), n), &mut sent);
                self.turned(alloc, turn, &sent)
            }
            Err(_) => { Ok(format!(in alloc; "refused {}", front::number(heard))?) }
        }
    }
}

impl Program for Chain {
    fn answer(&mut self, alloc: Global, words: &[&[u8]]) -> Result<String, LineError> {
        let mut sent = [0; limits::FRAME_ROOM];
        match words {
            [b"new"] => {
                self.reader = reader::new_reader();
                Ok(format!(in alloc; "new")?)
            }
            [b"select"] => {
                let turn = reader::select(self.reader, &mut sent);
                self.turned(alloc, turn, &sent)
            }
            [b"sweep"] => {
                let turn = reader::start_sweep(self.reader, &mut sent);
                self.turned(alloc, turn, &sent)
            }
            [b"halves", halves] => self.halves(alloc, halves),
            _ => {
                self.profile = bench_energies::profile_line(alloc, self.profile, words)?;
                Ok(format!(in alloc; "ok")?)
            }
        }
    }
}
