// The loop over a request's slots. Called by our own crates only, which lend the room.
ghost use Rattle.std.specs.Prelude.{◌≡◌, ◌+◌, ◌*◌, ◌≤◌, ◌<◌, length, take};
ghost use Rattle.limits.specs.Limits.{most_cards};
ghost use Rattle.frame_b.specs.LimitsB.{most_slots, list_room_b};
ghost use Rattle.rows.specs.Rows.{overlay};
ghost use Rattle.selection_b.specs.HeardB.{held_number, entry};
ghost use Rattle.slots_rules.specs.RunB.{out_frame, inquiry, list_bytes};
ghost use Rattle.slots.specs.Steps.{told_by, exchanged, stepped, goes_on, ends};

use field_b::Drawn;
use limits::MOST_CARDS;
use reader_b::{AnswerB, ReaderB, TurnB};
use selection_b::{Held, Request};

// After a slot: the reader's turn on what it heard, and the cards.
#[derive(Clone, Copy)]
pub struct ExchangedB {
    pub turn: TurnB,
    pub cards: [Drawn; MOST_CARDS],
}

// How far a request is: the reader's turn, the cards, how many frames went out and how many slots stand in the list.
#[derive(Clone, Copy)]
pub struct ProgressB {
    pub turn: TurnB,
    pub cards: [Drawn; MOST_CARDS],
    pub frames: usize,
    pub slots: usize,
}

// A frame, taken by the first cards, and the reader's turn on what it heard.
fn exchange(r: ReaderB, cards: [Drawn; MOST_CARDS], count: usize, frame: &[u8]) -> ExchangedB
    requires { count ≤ most_cards }
    ensures { result ≡ exchanged r cards count frame.now }
{
    let mut heard = [0u8; frame_b::ANSWER_ROOM];
    let t = field_b::within::take_all(cards, count, frame, &mut heard);
    let turn = reader_b::within::hear_rules(r, &heard[..t.bits]);
    let cards = t.cards;
    ExchangedB { turn, cards }
}

// The frame of a slot: in slot 1 the request, in each other its marker.
fn send(r: ReaderB, q: Request, cards: [Drawn; MOST_CARDS], count: usize) -> ExchangedB
    requires { count ≤ most_cards }
    ensures { result ≡ exchanged r cards count (out_frame q.wake q.afi r) }
{
    if r.slot == 1 {
        let request = selection_b::sent::request(q.wake, r.slots, q.afi);
        exchange(r, cards, count, &request)
    } else {
        let marker = selection_b::sent::marker(r.slot);
        exchange(r, cards, count, &marker)
    }
}

// "0, 1 or 2 for none, one, more".
fn held_number(k: Held) -> u8
    ensures { result ≡ held_number k }
{
    match k {
        Held::None => 0,
        Held::One => 1,
        Held::More => 2,
    }
}

// A slot's 13 bytes of the list.
pub fn put_entry(k: Held, atqb: [u8; 12], list: &mut [u8], at: usize)
    requires { at + 13 ≤ length list.old }
    ensures { list.new ≡ overlay list.old at (entry k atqb) }
{
    rows::within::put(list, at, &[held_number(k)]);
    rows::within::put(list, at + 1, &atqb);
}

// What a turn tells of its slot goes into the list. The answer is how many slots it tells of, one or none.
#[tactic(auto, using(rows::proofs::RowLaws::overlay_nil), unfolding(crate::specs::Steps::told_by, slots_rules::specs::RunB::list_bytes))]
pub fn put_told(t: TurnB, list: &mut [u8], at: usize) -> usize
    requires { at + 13 ≤ length list.old }
    ensures value { result ≡ length (told_by t) }
    ensures list_after { list.new ≡ overlay list.old at (list_bytes (told_by t)) }
    ensures t_len { length (list_bytes (told_by t)) ≡ 13 * length (told_by t) }
{
    match t.answer {
        AnswerB::Marks(k) | AnswerB::Ends(k) => {
            put_entry(k, t.atqb, list, at);
            1
        }
        _ => 0,
    }
}

// One slot more.
fn step(p: ProgressB, q: Request, count: usize, list: &mut [u8]) -> ProgressB
    requires { (count ≤ most_cards) × (p.slots ≤ p.frames) × (p.frames < most_slots) × (list_room_b ≤ length list.old) }
    ensures value { result ≡ stepped p q.wake q.afi count }
    ensures list_after { list.new ≡ overlay list.old (13 * p.slots) (list_bytes (told_by result.turn)) }
    ensures turn_len { length (list_bytes (told_by result.turn)) ≡ 13 * length (told_by result.turn) }
{
    let x = send(p.turn.reader, q, p.cards, count);
    let told = put_told(x.turn, list, 13 * p.slots);
    let cards = x.cards;
    ProgressB {
        turn: x.turn,
        cards,
        frames: p.frames + 1,
        slots: p.slots + told,
    }
}

// Is a frame out, and has the request a slot left?
#[tactic(auto, using(std::proofs::lemmas::Bool::Decides::nat_tests), unfolding(crate::specs::Steps::goes_on))]
fn goes_on(p: ProgressB, n: u8) -> bool
    ensures { result ≡ goes_on p n }
{
    p.frames < n as usize && reader_b::within::goes(p.turn.answer)
}

// A whole request over the first cards.
pub fn run(q: Request, cards: [Drawn; MOST_CARDS], count: usize, list: &mut [u8]) -> ProgressB
    requires { (count ≤ most_cards) × (q.slots ≤ most_slots) × (list_room_b ≤ length list.old) }
    ensures turn_value { result.turn ≡ (inquiry q.wake q.slots q.afi (take count cards)).last }
    ensures cards_value { result.cards ≡ ends cards count (inquiry q.wake q.slots q.afi (take count cards)) }
    ensures slots_value { result.slots ≡ length (inquiry q.wake q.slots q.afi (take count cards)).slots }
    ensures list_after { list.new ≡ overlay list.old 0 (list_bytes (inquiry q.wake q.slots q.afi (take count cards)).slots) }
{
    let opening = ReaderB {
        phase: reader_b::PhaseB::Slot,
        slots: q.slots,
        slot: 1,
    };
    let t = reader_b::within::turn(opening, AnswerB::Sends(40));
    let mut p = ProgressB {
        turn: t,
        cards,
        frames: 0,
        slots: 0,
    };
    // Kept: no index is counted: the loop ends with the reader, and its bound is the definition's.
    while goes_on(p, q.slots) {
        p = step(p, q, count, list);
    }
    p
}
