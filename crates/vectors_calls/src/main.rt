// The public calls' refusals from text, one for each line: a call, and numbers of which one is off. model/README.md has the lines.
#![tactic(auto)]

mod answers;
mod ends;
mod frames;
mod lines;
mod readers;
mod sweeps;

use ends::Ends;
use std::io;

fn main(rt: HostRuntime) -> io::Result<()> {
    bench_talk::talk(&rt, &mut Ends::new())
}
