// Fields of cards from text, each swept by a line `sweep`, after which the cards are forgotten. A line `row` sweeps them over a lent row, and they
// are kept.
#![tactic(auto)]

use bench_field::{Field, Way};
use bench_talk::{LineError, Program};
use std::alloc::Global;
use std::io;

// The field that is put together.
#[derive(Drop)]
struct Vectors {
    field: Field,
}

impl Program for Vectors {
    fn answer(&mut self, alloc: Global, words: &[&[u8]]) -> Result<String, LineError> {
        match words {
            [b"row"] => {
                let outcome = self.field.play(alloc, Way::Row)?;
                Ok(format!(in alloc; "{outcome}")?)
            }
            [b"sweep"] => {
                let outcome = self.field.play(alloc, Way::Values)?;
                self.field = Field::new(alloc);
                Ok(format!(in alloc; "{outcome}")?)
            }
            _ => self.field.answer(alloc, words),
        }
    }
}

fn main(rt: HostRuntime) -> io::Result<()> {
    let field = Field::new(rt.alloc());
    bench_talk::talk(&rt, &mut Vectors { field })
}
