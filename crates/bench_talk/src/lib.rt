// A program's talk: each line of standard input is answered on standard output as soon as its line feed has come.
#![tactic(auto)]

use bench::{Line, LineKind};
use std::alloc::{AllocError, Global};
use std::io;
use std::io::{BufRead, BufReader, Read};

// Why a line has no answer. That memory ran out ends the program.
// Kept: it is the error of a Result itself.
#[derive(Debug, Drop)]
pub enum LineError {
    NotUnderstood,
    Alloc(AllocError),
}

impl From<AllocError> for LineError {
    fn from(error: AllocError) -> Self {
        LineError::Alloc(error)
    }
}

// The most bytes of a line that are collected: those of the longest line, and a carriage return.
const ROOM: usize = 16385;

// A program, as its lines see it.
pub trait Program {
    // The answer to a line of these words, which may be lines itself; an empty text where nothing is to be said.
    fn answer(&mut self, alloc: Global, words: &[&[u8]]) -> Result<String, LineError>;
}

// Hands the words of each line to the program, and writes its answer and a line feed. A line that is not understood is answered too; comments and
// lines with no word are passed over, but counted.
pub fn talk<R: Input + Print + AllocGlobal, P: Program>(rt: &R, program: &mut P) -> io::Result<()> {
    let mut input = BufReader::new(rt.alloc(), rt.reader())?;
    let mut bytes = vec![in rt.alloc(); 0; ROOM]?;
    for number in 1..u64::MAX {
        let Some(line) = next(&mut input, bytes.as_mut_slice())? else {
            return Ok(());
        };
        let said = match words(rt.alloc(), line, bytes.as_slice()) {
            Ok(words) if words.is_empty() => Ok(String::new(rt.alloc())),
            Ok(words) => program.answer(rt.alloc(), words.as_slice()),
            Err(error) => Err(error),
        };
        say(rt, number, said)?;
    }
    Ok(())
}

// The words of a line, whose bytes stand at the front of those lent: none where it is passed over.
fn words(alloc: Global, line: Line, bytes: &[u8]) -> Result<Vec<&[u8]>, LineError> {
    let text = bench::text(bench::front(bytes, line.length));
    match bench::kind(line.overlong, text) {
        LineKind::PassedOver => Ok(Vec::new(alloc)),
        LineKind::TooLong => Err(LineError::NotUnderstood),
        LineKind::Script => Ok(bench::words(alloc, text)?),
    }
}

// The next line, collected at the front of the lent bytes; none at the end of the input, where a line may lack its line feed.
fn next<R: BufRead>(input: &mut R, bytes: &mut [u8]) -> io::Result<Option<Line>> {
    let mut line = bench::new_line();
    for byte in input.by_ref().bytes() {
        line = bench::feed(bytes, line, byte?);
        if line.complete {
            return Ok(Some(line));
        }
    }
    Ok(if line.length > 0 { Some(line) } else { None })
}

// Writes the answer to the line of that number.
fn say<R: Print + AllocGlobal>(
    rt: &R,
    number: u64,
    answer: Result<String, LineError>,
) -> io::Result<()> {
    let mut text = match answer {
        Ok(text) if text.is_empty() => return Ok(()),
        Ok(text) => text,
        Err(LineError::NotUnderstood) => format!(in rt.alloc(); "line {number}: not understood")?,
        Err(LineError::Alloc(error)) => return Err(error.into()),
    };
    text.push('\n')?;
    rt.write_all(text.as_bytes())
}
