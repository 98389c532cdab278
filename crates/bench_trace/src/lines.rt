// The text of a trace, line by line.
use crate::frame_names::{Frame, HeardAfter};
use crate::groups::{Heard, Sent};
use std::alloc::{AllocError, Global};

// The text so far, and the frame that was sent last.
#[derive(Drop)]
pub struct Lines {
    pub text: String,
    alloc: Global,
    last: Frame,
}

impl Lines {
    pub fn new(alloc: Global) -> Self {
        Lines {
            text: String::new(alloc),
            alloc,
            last: Frame::Other,
        }
    }

    pub fn sent(&mut self, row: &[u8]) -> Result<(), AllocError> {
        self.last = Frame::of(row);
        let name = format!(in self.alloc; "> {}", self.last)?;
        writeln!(self.text, "{name:<20}{}", Sent(row))
    }

    pub fn heard(&mut self, row: &[u8]) -> Result<(), AllocError> {
        let name = format!(in self.alloc; "< {}", HeardAfter(self.last))?;
        let row = Heard {
            row,
            left: self.last.left_over(),
        };
        writeln!(self.text, "{name:<20}{row}")
    }

    pub fn silence(&mut self) -> Result<(), AllocError> {
        writeln!(self.text, "< silence")
    }
}
