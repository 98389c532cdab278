// A field of cards from text, swept at the end of the input, over a lent row: BENCH.md's language.
#![tactic(auto)]

use bench_field::{Field, Way};
use std::io;

// The trace for people stands above what came of the field.
fn main(rt: HostRuntime) -> io::Result<()> {
    let mut field = Field::new(rt.alloc());
    bench_talk::talk(&rt, &mut field)?;
    let outcome = field.play(rt.alloc(), Way::Row)?;
    let trace = bench_trace::trace(rt.alloc(), outcome.log())?;
    let text = format!(in rt.alloc(); "{trace}{outcome}\n")?;
    rt.write_all(text.as_bytes())
}
