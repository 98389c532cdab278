// Logs from text: one verdict for each line.
#![tactic(auto)]

use bench_talk::{LineError, Program};
use bench_verdict::Parted;
use std::alloc::Global;
use std::io;

// The most bytes of a log: more than the checker takes.
const MOST: usize = 41000;

// Nothing is kept from one line to the next.
#[derive(Clone, Copy)]
struct Logs;

impl Program for Logs {
    fn answer(&mut self, alloc: Global, words: &[&[u8]]) -> Result<String, LineError> {
        match words {
            [b"check", bytes] => check(alloc, bytes, 0),
            [b"filled", size, bytes] => check(alloc, bytes, bench_lines::number_to(size, MOST)?),
            _ => Err(LineError::NotUnderstood),
        }
    }
}

fn main(rt: HostRuntime) -> io::Result<()> {
    bench_talk::talk(&rt, &mut Logs)
}

// The verdict on these bytes, with zeros behind them up to that size.
fn check(alloc: Global, bytes: &[u8], size: usize) -> Result<String, LineError> {
    let mut log = bench_lines::bytes(alloc, bytes, MOST)?;
    if log.len() < size {
        log.resize(size, 0)?;
    }
    let checked = trace::check(log.as_slice());
    Ok(format!(in alloc; "{}", Parted(' ', checked))?)
}
