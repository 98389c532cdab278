// The script language's lines and words.
#![tactic(auto)]

ghost use Rattle.std.specs.Prelude.{◌≡◌, ℕ, IfOk, [], length, map, get_or, take};
ghost use Rattle.bench.specs.Lines.{no_line, fed, fed_bytes};
ghost use Rattle.bench.specs.Words.{words_of, word_at, without_return, kind_of};

// Functions with conditions on what they are called with. Only the crates of this repository call them.
pub mod within;

use std::alloc::{AllocError, Global};

// A line that is being collected: its length so far, whether bytes had no room, and whether its line feed has come.
// Kept: an overlong line keeps its length and what was collected: the theorems line_collected and line_overlong speak of all three.
#[derive(Clone, Copy, Debug, PartialEq, Eq)]
pub struct Line {
    pub length: usize,
    pub overlong: bool,
    pub complete: bool,
}

// What is to be done with a line: nothing; it is not understood; its words are to be read.
#[derive(Clone, Copy, Debug, PartialEq, Eq)]
pub enum LineKind {
    PassedOver,
    TooLong,
    Script,
}

// No byte yet.
pub fn new_line() -> Line
    ensures { result ≡ no_line }
{
    Line {
        length: 0,
        overlong: false,
        complete: false,
    }
}

// The next byte of a line, which is collected in the lent bytes.
pub fn feed(bytes: &mut [u8], line: Line, b: u8) -> Line
    ensures value { result ≡ fed (length bytes.old) line b }
    ensures bytes_after { bytes.new ≡ fed_bytes bytes.old line b }
{
    let length = line.length;
    if b == b'\n' {
        Line {
            complete: true,
            ..line
        }
    } else if length < bytes.len() {
        bytes[length] = b;
        Line {
            length: length + 1,
            complete: false,
            ..line
        }
    } else {
        Line {
            overlong: true,
            complete: false,
            ..line
        }
    }
}

// A line without the carriage return at its end.
pub fn text(line: &[u8]) -> &[u8]
    ensures { result.now ≡ without_return line.now }
{
    let Some((last, text)) = line.split_last() else {
        return line;
    };
    if *last == b'\r' { text } else { line }
}

// What is to be done with a line.
pub fn kind(overlong: bool, text: &[u8]) -> LineKind
    ensures { result ≡ kind_of overlong text.now }
{
    if overlong {
        LineKind::TooLong
    } else if text.len() > 16384 {
        LineKind::TooLong
    } else if within::first(text) == b'#' {
        LineKind::PassedOver
    } else if word(text, 0).is_empty() {
        LineKind::PassedOver
    } else {
        LineKind::Script
    }
}

// The words, in order.
pub fn words(alloc: Global, text: &[u8]) -> Result<Vec<&[u8]>, AllocError>
    ensures value { IfOk result (λ v. map (λ w. w.now) v.items ≡ words_of text.now) }
    ensures each { IfOk result (λ v. (k : ℕ) → get_or (map (λ w. w.now) v.items) k [] ≡ word_at k text.now) }
{
    text.split(|&b| b == b' ')
        .filter(|word| !word.is_empty())
        .collect(alloc)
}

// The k-th word, counted from 0; empty where there is none.
pub fn word(text: &[u8], k: usize) -> &[u8]
    ensures { result.now ≡ word_at k text.now }
{
    let mut at = 0;
    for _i in 0..k {
        at = within::after_word(text, at);
    }
    let start = within::skip(text, at);
    let end = within::stop(text, start);
    &text[start..end]
}

// The first n elements of a slice; all of it where it has no more.
pub fn front<T>(s: &[T], n: usize) -> &[T]
    ensures { result.now ≡ take n s.now }
{
    s.get(..n).unwrap_or(s)
}
