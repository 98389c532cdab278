// What came of a field, as lines.
use crate::swept::Swept;
use crate::woken::Woken;
use bench_lines::Refused;
use refusal::Refusal;
use std::fmt;

// Declined before a frame was sent, or what was done.
#[derive(Drop)]
pub enum Outcome {
    Refused(Refusal),
    Swept(Swept),
    Woken(Woken),
}

impl Outcome {
    // The log that was written: none where nothing was swept.
    pub fn log(&self) -> &[u8] {
        match self {
            Outcome::Swept(swept) => swept.log.as_slice(),
            _ => &[],
        }
    }
}

impl fmt::Display for Outcome {
    fn fmt<W: fmt::Write>(&self, f: &mut fmt::Formatter<W>) -> fmt::Result {
        match self {
            Outcome::Refused(refusal) => write!(f, "{}", Refused(*refusal)),
            Outcome::Swept(swept) => write!(f, "{swept}"),
            Outcome::Woken(woken) => write!(f, "{woken}"),
        }
    }
}
