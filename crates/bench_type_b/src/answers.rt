// What the answers show.
use bench_text::Hex;
use card_b::StateB;
use field_b::Drawn;
use selection_b::Held;
use std::fmt;

#[derive(Clone, Copy)]
pub struct State(pub StateB);

impl fmt::Display for State {
    fn fmt<W: fmt::Write>(&self, f: &mut fmt::Formatter<W>) -> fmt::Result {
        match self.0 {
            StateB::Off => f.write_str("off"),
            StateB::Idle => f.write_str("idle"),
            StateB::Requested(slot) => write!(f, "requested {slot}"),
            StateB::Declared => f.write_str("declared"),
            StateB::Active => f.write_str("active"),
            StateB::Halt => f.write_str("halt"),
        }
    }
}

// `card PUPI STATE` for each card, then `cards COUNT`.
#[derive(Clone, Copy)]
pub struct Cards<'a>(pub &'a [Drawn]);

impl fmt::Display for Cards<'_> {
    fn fmt<W: fmt::Write>(&self, f: &mut fmt::Formatter<W>) -> fmt::Result {
        for drawn in self.0 {
            let card = drawn.card;
            writeln!(f, "card {} {}", Hex(&card.pupi), State(card.state))?;
        }
        write!(f, "cards {}", self.0.len())
    }
}

// A row of data bits as the bytes that it carries, the low bit of each first.
#[derive(Clone, Copy)]
pub struct Octets<'a>(pub &'a [u8]);

impl fmt::Display for Octets<'_> {
    fn fmt<W: fmt::Write>(&self, f: &mut fmt::Formatter<W>) -> fmt::Result {
        let (octets, _) = self.0.as_chunks::<8>();
        if octets.is_empty() {
            return f.write_str("-");
        }
        for octet in octets {
            let byte = octet
                .iter()
                .rev()
                .fold(0u8, |byte, bit| byte << 1 | bit % 2);
            write!(f, "{}", Hex(&[byte]))?;
        }
        Ok(())
    }
}

// `slot I none`, `slot I one ATQB`, `slot I more`
#[derive(Clone, Copy)]
pub struct Slot<'a> {
    pub number: usize,
    pub held: Held,
    pub atqb: &'a [u8],
}

impl fmt::Display for Slot<'_> {
    fn fmt<W: fmt::Write>(&self, f: &mut fmt::Formatter<W>) -> fmt::Result {
        write!(f, "slot {} ", self.number)?;
        match self.held {
            Held::None => f.write_str("none"),
            Held::One => write!(f, "one {}", Hex(self.atqb)),
            Held::More => f.write_str("more"),
        }
    }
}

// The first slots of a list, 13 bytes each: a line for each.
#[derive(Clone, Copy)]
pub struct Slots<'a> {
    pub list: &'a [u8],
    pub count: usize,
}

impl fmt::Display for Slots<'_> {
    fn fmt<W: fmt::Write>(&self, f: &mut fmt::Formatter<W>) -> fmt::Result {
        for (i, entry) in self.list.chunks_exact(13).take(self.count).enumerate() {
            if let [held, atqb @ ..] = entry {
                let slot = Slot {
                    number: i + 1,
                    held: held_of(*held),
                    atqb,
                };
                writeln!(f, "{slot}")?;
            }
        }
        Ok(())
    }
}

// What a slot held, by its number in the list.
fn held_of(number: u8) -> Held {
    match number {
        0 => Held::None,
        1 => Held::One,
        _ => Held::More,
    }
}
