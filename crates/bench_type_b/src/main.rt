// Type B played from text, T-05: a field of cards, a reader and a list. BENCH.md's language, one answer for each line, and several lines for `cards`
// and `field`.
#![tactic(auto)]

mod answers;
mod cards;
mod frames;
mod played;
mod words;

use played::Played;
use std::io;

fn main(rt: HostRuntime) -> io::Result<()> {
    bench_talk::talk(&rt, &mut Played::new(rt.alloc())?)
}
