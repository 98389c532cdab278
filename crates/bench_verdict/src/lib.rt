// The text of a checked log (T-12).
#![tactic(auto)]

use bench_text::Hex;
use card::Card;
use std::fmt;
use trace::{Checked, Fault};

// `clean`, and the cards in the order found, this character before each; or the record at fault and the refusal's number, after 3 also T-07's byte.
#[derive(Clone, Copy)]
pub struct Parted(pub char, pub Checked);

// A card of the list: its UID and last SAK, unspaced.
#[derive(Clone, Copy)]
struct Found(Card);

impl fmt::Display for Parted {
    fn fmt<W: fmt::Write>(&self, f: &mut fmt::Formatter<W>) -> fmt::Result {
        let Parted(before, checked) = *self;
        match checked.verdict {
            Ok(()) => {
                f.write_str("clean")?;
                for card in bench::front(&checked.cards, checked.found) {
                    write!(f, "{before}{}", Found(*card))?;
                }
            }
            Err(Fault { index, refusal }) => {
                let n = refusal::number(refusal);
                write!(f, "{index} {n}")?;
                if n == 3 {
                    write!(f, " {}", refusal::place(refusal))?;
                }
            }
        }
        Ok(())
    }
}

impl fmt::Display for Found {
    fn fmt<W: fmt::Write>(&self, f: &mut fmt::Formatter<W>) -> fmt::Result {
        let Card { uid, blocks, .. } = &self.0;
        let uid = Hex(bench::front(&uid.bytes, uid::byte_count(uid.size)));
        let sak = if *blocks { "20" } else { "00" };
        write!(f, "{uid}{sak}")
    }
}
