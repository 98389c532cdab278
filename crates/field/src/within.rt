// One frame taken by every card of a field. Called by our own crates only, which lend the room: firmware sweeps a field.
ghost use Rattle.std.specs.Prelude.{◌≡◌, ◌≤◌, length, take};
ghost use Rattle.limits.specs.Limits.{most_cards};
ghost use Rattle.rows.specs.Rows.{overlay};
ghost use Rattle.card.specs.Card.{takes, answers};
ghost use Rattle.field.specs.Merge.{meet, join};
ghost use Rattle.field.specs.Field.{heard_from};
ghost use Rattle.field.specs.Calls.{together, one};

use card::Card;
use limits::MOST_CARDS;

// A card after a frame, and the number of bits heard up to it.
#[derive(Clone, Copy)]
pub struct One {
    pub card: Card,
    pub bits: usize,
}

// The cards after a frame, and the number of bits heard.
// Kept: the number counts no elements of this array.
#[derive(Clone, Copy)]
pub struct Together {
    pub cards: [Card; MOST_CARDS],
    pub bits: usize,
}

// Two bits sent together.
fn meet(x: u8, y: u8) -> u8
    ensures { result ≡ meet x y }
{
    if x == y { x } else { 2 }
}

// An answer sent together with the first bits of a row: what is heard then stands at the front of the row. The result is its number of bits.
pub fn join(row: &mut [u8], bits: usize, answer: &[u8]) -> usize
    requires { (bits ≤ length row.old) × (length answer.now ≤ length row.old) }
    ensures value { result ≡ length (join answer.now (take bits row.old)) }
    ensures row_after { row.new ≡ overlay row.old 0 (join answer.now (take bits row.old)) }
{
    for (i, &x) in answer.iter().enumerate() {
        row[i] = if i < bits { meet(x, row[i]) } else { x };
    }
    bits.max(answer.len())
}

// One card takes the frame, and its answer joins the bits that are heard so far.
pub fn take_one(c: Card, frame: &[u8], heard: &mut [u8], bits: usize) -> One
    requires { (bits ≤ length heard.old) × (45 ≤ length heard.old) }
    ensures value { result ≡ one c frame.now (take bits heard.old) }
    ensures heard_after { heard.new ≡ overlay heard.old 0 (join (answers c frame.now) (take bits heard.old)) }
{
    let mut row = [0u8; 45];
    let t = card::within::take_rules(c, frame, &mut row);
    let sent = card::within::bits_in(t.answer);
    One {
        card: t.card,
        bits: join(heard, bits, &row[..sent]),
    }
}

// Each of the first n cards takes the frame. The row in which all answers are heard grows from the last card to the first.
pub fn take_all(start: [Card; MOST_CARDS], n: usize, frame: &[u8], heard: &mut [u8]) -> Together
    requires { (n ≤ most_cards) × (45 ≤ length heard.old) }
    ensures value { result ≡ together start n frame.now }
    ensures heard_after { heard.new ≡ overlay heard.old 0 (heard_from frame.now (take n start)) }
{
    let mut cards = start;
    let mut bits = 0;
    for i in (0..n).rev() {
        let one = take_one(cards[i], frame, heard, bits);
        cards[i] = one.card;
        bits = one.bits;
    }
    Together { cards, bits }
}
