// Document 01's form for T-12: "The trace reader keeps hold of the log it reads and its place". Each function over the struct is thin; the work
// is done by `record_at`, which takes a plain slice. `read_at` is what the trace checker calls.
#![tactic(auto)]

ghost use Rattle.std.specs.Prelude.{◌≡◌};
ghost use Rattle.air_log.specs.Reading.{record_at};

use air_log::Record;

// A log, and a place in it.
#[derive(Clone, Copy)]
pub struct Trace<'a> {
    pub log: &'a [u8],
    pub at: usize,
}

// A trace reader at a place of a log.
pub fn start_at<'a>(log: &'a [u8], at: usize) -> Trace<'a>
    ensures { (result.log ≡ log.entry) × (result.at ≡ at) }
{
    Trace { log, at }
}

// The record at a place of a log.
fn record_at(log: &[u8], at: usize, stamp: usize) -> Record
    ensures { result ≡ record_at stamp log.now at }
{
    air_log::record_in(log, stamp, at)
}

// The record at the place that a trace reader has come to.
pub fn next_record<'a>(t: Trace<'a>, stamp: usize) -> Record
    ensures { result ≡ record_at stamp t.entry.log.now t.entry.at }
{
    record_at(t.log, t.at, stamp)
}

// The same trace reader at another place.
pub fn moved<'a>(t: Trace<'a>, at: usize) -> Trace<'a>
    ensures { (result.log ≡ t.entry.log) × (result.at ≡ at) }
{
    Trace { log: t.log, at }
}

// The record at a place of a log, by a trace reader that starts there.
pub fn read_at(log: &[u8], stamp: usize, at: usize) -> Record
    ensures { result ≡ record_at stamp log.now at }
{
    next_record(start_at(log, at), stamp)
}
