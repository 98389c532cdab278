// What an exchange came to, as text.
use bench_lines::Refused;
use bench_text::Hex;
use block::Told;
use exchange::Outcome;
use std::fmt;

// `TOLD rounds R messages M last L down CRC up CRC`, with both whole buffers.
#[derive(Clone, Copy)]
pub struct Exchanged<'a> {
    pub outcome: Outcome,
    pub down: &'a [u8],
    pub up: &'a [u8],
}

impl fmt::Display for Exchanged<'_> {
    fn fmt<W: fmt::Write>(&self, f: &mut fmt::Formatter<W>) -> fmt::Result {
        let Outcome {
            told,
            rounds,
            messages,
            last,
            ..
        } = self.outcome;
        let told = Said(told);
        write!(f, "{told} rounds {rounds} messages {messages} last {last}")?;
        let down = crc::crc_bytes(self.down);
        let up = crc::crc_bytes(self.up);
        write!(f, " down {} up {}", Hex(&down), Hex(&up))
    }
}

// What the reader's host was told last.
#[derive(Clone, Copy)]
struct Said(Told);

impl fmt::Display for Said {
    fn fmt<W: fmt::Write>(&self, f: &mut fmt::Formatter<W>) -> fmt::Result {
        match self.0 {
            Told::Quiet => f.write_str("quiet"),
            Told::Message(n) => write!(f, "message {n}"),
            Told::Granted => f.write_str("granted"),
            Told::Deselected => f.write_str("deselected"),
            Told::Refused(refusal) => write!(f, "{}", Refused(refusal)),
        }
    }
}
