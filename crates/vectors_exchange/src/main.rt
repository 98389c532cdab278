// Demand 2 and T-11 from text: a card and a reader that speak to each other over a channel without errors, or one that loses and damages frames.
// One answer for each line.
#![tactic(auto)]

mod answers;
mod channel;
mod given;

use channel::Channel;
use std::io;

fn main(rt: HostRuntime) -> io::Result<()> {
    bench_talk::talk(&rt, &mut Channel { ends: None })
}
