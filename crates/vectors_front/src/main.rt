// T-01: from energies to a selected card. What the front end makes of the energies, the reader hears; one answer for each line.
#![tactic(auto)]

mod chain;

use chain::Chain;
use std::io;

fn main(rt: HostRuntime) -> io::Result<()> {
    bench_talk::talk(&rt, &mut Chain::new())
}
