// A row for people: groups, each behind a space.
use bench_text::{Hex, Row};
use std::fmt;

// A reader's frame: the byte of a short one, or whole bytes with parity and then left-over bits.
#[derive(Clone, Copy)]
pub struct Sent<'a>(pub &'a [u8]);

// What was heard after a frame with so many left-over bits. The rest of that byte, without its parity, comes first.
#[derive(Clone, Copy)]
pub struct Heard<'a> {
    pub row: &'a [u8],
    pub left: usize,
}

// Whole bytes with parity, each in two capitals, or in its eight bits where one collided; then left-over bits.
#[derive(Clone, Copy)]
struct Groups<'a>(&'a [u8]);

impl fmt::Display for Sent<'_> {
    fn fmt<W: fmt::Write>(&self, f: &mut fmt::Formatter<W>) -> fmt::Result {
        if self.0.len() == 7 {
            write!(f, " {}", Hex(&[value(self.0)]))
        } else {
            write!(f, "{}", Groups(self.0))
        }
    }
}

impl fmt::Display for Heard<'_> {
    fn fmt<W: fmt::Write>(&self, f: &mut fmt::Formatter<W>) -> fmt::Result {
        if self.left == 0 {
            return write!(f, "{}", Groups(self.row));
        }
        let missing = 8usize.saturating_sub(self.left);
        let rest = self.row.get(missing + 1..).unwrap_or(&[]);
        write!(
            f,
            " {}{}",
            Row(bench::front(self.row, missing)),
            Groups(rest)
        )
    }
}

impl fmt::Display for Groups<'_> {
    fn fmt<W: fmt::Write>(&self, f: &mut fmt::Formatter<W>) -> fmt::Result {
        let (bytes, rest) = self.0.as_chunks::<9>();
        for byte in bytes {
            let bits = &byte[..8];
            if rows::is_clean(bits) {
                write!(f, " {}", Hex(&[value(bits)]))?;
            } else {
                write!(f, " {}", Row(bits))?;
            }
        }
        if !rest.is_empty() {
            write!(f, " {}", Row(rest))?;
        }
        Ok(())
    }
}

// The number of at most eight bits, the lowest first. A collided one counts as 0.
pub fn value(bits: &[u8]) -> u8 {
    bits.iter().rev().fold(0, |value, bit| value << 1 | bit % 2)
}
