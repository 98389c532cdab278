// One frame taken by every card of a field. Called by our own crates only, which lend the room: firmware calls for a whole request.
ghost use Rattle.std.specs.Prelude.{◌≡◌, ◌≤◌, length, take};
ghost use Rattle.limits.specs.Limits.{most_cards};
ghost use Rattle.rows.specs.Rows.{overlay};
ghost use Rattle.frame_b.specs.LimitsB.{answer_room_b};
ghost use Rattle.field.specs.Merge.{join};
ghost use Rattle.field_b.specs.FieldB.{answers_b, heard_from};
ghost use Rattle.field_b.specs.CallsB.{together, one};

use crate::Drawn;
use limits::MOST_CARDS;

// A card after a frame, and the number of bits heard up to it.
#[derive(Clone, Copy)]
pub struct OneB {
    pub drawn: Drawn,
    pub bits: usize,
}

// The cards after a frame, and the number of bits heard.
// Kept: the number counts no elements of this array.
#[derive(Clone, Copy)]
pub struct TogetherB {
    pub cards: [Drawn; MOST_CARDS],
    pub bits: usize,
}

// One card takes the frame, and its answer joins the bits that are heard so far.
pub fn take_one(d: Drawn, frame: &[u8], heard: &mut [u8], bits: usize) -> OneB
    requires { (bits ≤ length heard.old) × (answer_room_b ≤ length heard.old) }
    ensures value { result ≡ one d frame.now (take bits heard.old) }
    ensures heard_after { heard.new ≡ overlay heard.old 0 (join (answers_b frame.now d) (take bits heard.old)) }
{
    let mut row = [0u8; frame_b::ANSWER_ROOM];
    let t = card_b::within::take_rules(d.card, d.number, frame, &mut row);
    let n = card_b::within::bits_in(t.answer);
    let bits = field::within::join(heard, bits, &row[..n]);
    OneB {
        drawn: Drawn { card: t.card, ..d },
        bits,
    }
}

// Each of the first n cards takes the frame, and the row in which all answers are heard grows from card to card.
pub fn take_all(start: [Drawn; MOST_CARDS], n: usize, frame: &[u8], heard: &mut [u8]) -> TogetherB
    requires { (n ≤ most_cards) × (answer_room_b ≤ length heard.old) }
    ensures value { result ≡ together start n frame.now }
    ensures heard_after { heard.new ≡ overlay heard.old 0 (heard_from frame.now (take n start)) }
{
    let mut cards = start;
    let mut bits = 0;
    for d in cards[..n].iter_mut() {
        let o = take_one(*d, frame, heard, bits);
        *d = o.drawn;
        bits = o.bits;
    }
    TogetherB { cards, bits }
}
