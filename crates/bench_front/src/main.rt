// T-01: what the radio front end hands over, turned into received rows from text: one answer for each line.
#![tactic(auto)]

mod played;

use played::Played;
use std::io;

fn main(rt: HostRuntime) -> io::Result<()> {
    bench_talk::talk(&rt, &mut Played::new(rt.alloc())?)
}
