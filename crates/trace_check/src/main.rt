// T-12, the trace checker: reads a log from standard input and says whose fault it was, or lists its cards.
#![tactic(auto)]

use bench_verdict::Parted;
use std::io;
use std::io::Read;

// A byte more than any input that is read record by record: one that fills it is too long.
const ROOM: u64 = 40962;

fn main(rt: HostRuntime) -> io::Result<()> {
    let mut input = Vec::new(rt.alloc());
    rt.reader().take(ROOM).read_to_end(&mut input)?;
    let checked = trace::check(input.as_slice());
    println!(rt; "{}", Parted('\n', checked))
}
