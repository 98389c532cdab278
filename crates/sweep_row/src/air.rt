// What is heard of the cards that have taken a frame, and one card more.
ghost use Rattle.std.specs.Prelude.{◌≡◌, ◌≤◌, length};
ghost use Rattle.sweep_row.specs.Row.{silence, heard_card};

use card::Card;
use reader::Reader;

// The bits heard, at the front of a row with room for the longest answer.
// Kept: a row and its length, since the core has fixed memory.
#[derive(Clone, Copy)]
pub struct Air {
    pub heard: [u8; 45],
    pub bits: usize,
}

// A card after a frame, and what is heard up to it.
#[derive(Clone, Copy)]
pub struct HeardCard {
    pub card: Card,
    pub air: Air,
}

pub fn silence() -> Air
    ensures { result ≡ silence }
{
    Air {
        heard: [0u8; 45],
        bits: 0,
    }
}

// The card takes the reader's frame.
pub fn hear_card(a: Air, r: Reader, c: Card) -> HeardCard
    requires { a.bits ≤ length a.heard }
    ensures { result ≡ heard_card a r c }
{
    let mut frame = [0u8; 81];
    reader::within::put_frame(r, &mut frame);
    let n = reader::within::frame_bits(r);
    let mut heard = a.heard;
    let o = field::within::take_one(c, &frame[..n], &mut heard, a.bits);
    HeardCard {
        card: o.card,
        air: Air {
            heard,
            bits: o.bits,
        },
    }
}
