// Frames, CRC_A, B and levels from text: one answer for each line.
#![tactic(auto)]

mod lines;

use lines::Lines;
use std::io;

fn main(rt: HostRuntime) -> io::Result<()> {
    bench_talk::talk(&rt, &mut Lines)
}
