// What a call is lent, and what it comes to as text.
use bench_lines::Refused;
use bench_talk::LineError;
use bench_text::Row;
use refusal::Refusal;
use std::alloc::{AllocError, Global};

// So many elements of a memory, all of the same value; all that there are where it has no more than most.
pub fn lent(alloc: Global, value: u8, n: usize, most: usize) -> Result<Vec<u8>, AllocError> {
    vec![in alloc; value; n.min(most)]
}

// `bits N`, `bytes N`, `frames N`, or `refused N`
pub fn counted(
    alloc: Global,
    unit: &str,
    count: Result<usize, Refusal>,
) -> Result<String, LineError> {
    match count {
        Ok(n) => Ok(format!(in alloc; "{unit} {n}")?),
        Err(refusal) => Ok(format!(in alloc; "{}", Refused(refusal))?),
    }
}

// `sent ROW`, or `refused N`
pub fn sent(alloc: Global, refusal: Option<Refusal>, row: &[u8]) -> Result<String, LineError> {
    match refusal {
        Some(refusal) => Ok(format!(in alloc; "{}", Refused(refusal))?),
        None => Ok(format!(in alloc; "sent {}", Row(row))?),
    }
}
