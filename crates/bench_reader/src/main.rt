// One reader played from text: BENCH.md's language, one answer for each line.
#![tactic(auto)]

mod played;
mod said;

use played::Played;
use std::io;

fn main(rt: HostRuntime) -> io::Result<()> {
    bench_talk::talk(&rt, &mut Played::new(rt.alloc())?)
}
