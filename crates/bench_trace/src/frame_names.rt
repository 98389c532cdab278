// What a reader's frame is, and the names of frames and of what is heard after them.
use crate::groups::value;
use std::fmt;
use uid::Level;

// A reader's frame; of ANTICOLLISION also how many bits of a broken byte it has.
#[derive(Clone, Copy)]
pub enum Frame {
    Reqa,
    Wupa,
    Anticollision(Level, usize),
    Select(Level),
    Hlta,
    Other,
}

// The name of what is heard after a frame.
#[derive(Clone, Copy)]
pub struct HeardAfter(pub Frame);

// `CL1`, `CL2` or `CL3`.
#[derive(Clone, Copy)]
struct Cascade(Level);

impl Frame {
    pub fn of(row: &[u8]) -> Self {
        if row.len() == 7 {
            return match value(row) {
                0x26 => Frame::Reqa,
                0x52 => Frame::Wupa,
                _ => Frame::Other,
            };
        }
        let hlta = selection::sent::hlta();
        if row == hlta.as_slice() {
            return Frame::Hlta;
        }
        let (bytes, _) = row.as_chunks::<9>();
        match bytes {
            [sel, nvb, ..] => selecting(value(&sel[..8]), value(&nvb[..8])),
            _ => Frame::Other,
        }
    }

    // How many bits of a broken byte it has.
    pub fn left_over(self) -> usize {
        match self {
            Frame::Anticollision(_, left) => left,
            _ => 0,
        }
    }
}

impl fmt::Display for Frame {
    fn fmt<W: fmt::Write>(&self, f: &mut fmt::Formatter<W>) -> fmt::Result {
        match *self {
            Frame::Reqa => f.write_str("REQA"),
            Frame::Wupa => f.write_str("WUPA"),
            Frame::Anticollision(level, _) => write!(f, "ANTICOLLISION {}", Cascade(level)),
            Frame::Select(level) => write!(f, "SELECT {}", Cascade(level)),
            Frame::Hlta => f.write_str("HLTA"),
            Frame::Other => f.write_str("frame"),
        }
    }
}

// Only a part of a UID is named with its level.
impl fmt::Display for HeardAfter {
    fn fmt<W: fmt::Write>(&self, f: &mut fmt::Formatter<W>) -> fmt::Result {
        match self.0 {
            Frame::Reqa | Frame::Wupa => f.write_str("ATQA"),
            Frame::Anticollision(level, _) => write!(f, "UID {}", Cascade(level)),
            Frame::Select(_) => f.write_str("SAK"),
            Frame::Hlta | Frame::Other => f.write_str("answer"),
        }
    }
}

impl fmt::Display for Cascade {
    fn fmt<W: fmt::Write>(&self, f: &mut fmt::Formatter<W>) -> fmt::Result {
        f.write_str(match self.0 {
            Level::One => "CL1",
            Level::Two => "CL2",
            Level::Three => "CL3",
        })
    }
}

// A frame of the selection, by its SEL and NVB.
fn selecting(sel: u8, nvb: u8) -> Frame {
    let level = match sel {
        0x93 => Level::One,
        0x95 => Level::Two,
        0x97 => Level::Three,
        _ => return Frame::Other,
    };
    match nvb {
        0x70 => Frame::Select(level),
        _ => Frame::Anticollision(level, usize::from(nvb % 16)),
    }
}
