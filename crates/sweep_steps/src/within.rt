// The sweep's loop: an exchange is a reader frame and what is heard after it. Called by our own crates only, which lend the room.
ghost use Rattle.std.specs.Prelude.{◌≡◌, true, ◌+◌, ◌*◌, ◌≤◌, ◌<◌, length, take};
ghost use Rattle.rows.specs.Rows.{overlay, clean};
ghost use Rattle.air_log.specs.Log.{sent_heard, exchange_bytes, exchange_size, log_bytes, log_size, list_bytes};
ghost use Rattle.air_log.specs.Calls.{most_bits};
ghost use Rattle.limits.specs.Limits.{most_cards};
ghost use Rattle.sweep_steps.specs.Steps.{no_card, goes, found_by, exchange_of, aired, goes_on, ends, tick_bound, Roomy, Written};
ghost use Rattle.sweep_steps.specs.Loop.{swept_if, reached_at, exchanged, stepped, next_turn};

pub use crate::terms::is_within;
use card::{Card, CardState};
use limits::MOST_CARDS;
use memory::within::Hears;
use memory::{Memory, Path};
use reader::{Answer, Reader, Turn};
use uid::UidSize;

// A card that is off: it stands in an array where there is no card.
pub fn no_card() -> Card
    ensures { result ≡ no_card }
{
    Card {
        uid: uid::within::sized(UidSize::Single, &[]),
        blocks: false,
        index: 0,
        state: CardState::Off,
    }
}

// Kept: a row and its length, since the core has fixed memory.
// A frame was on the air: the cards after it, the bits heard, at the front of a row with room for the longest answer, and the bytes of log that both took.
#[derive(Clone, Copy)]
pub struct Aired {
    pub cards: [Card; MOST_CARDS],
    pub heard: [u8; 45],
    pub bits: usize,
    pub bytes: usize,
}

// After an exchange: the reader's turn and path, the cards, and the bytes of log that it took.
#[derive(Clone, Copy)]
pub struct Exchanged {
    pub memory: Memory,
    pub cards: [Card; MOST_CARDS],
    pub bytes: usize,
}

// How far a sweep is: the reader's turn and path (of the plain sweep it is empty), the cards, the bytes of log so far, the frames sent and the UIDs
// found.
// Kept: the number counts no elements of this array.
#[derive(Clone, Copy)]
pub struct Progress {
    pub memory: Memory,
    pub cards: [Card; MOST_CARDS],
    pub logged: usize,
    pub frames: usize,
    pub found: usize,
}

// The records of a reader frame, with a tick, and of what was heard after it, with the next. The answer is their number of bytes.
// Kept: a tick of the log that the loop counts; the bound is the definition's, and each of the three takes it from the loop.
pub fn put_exchange(log: &mut [u8], at: usize, tick: usize, frame: &[u8], heard: &[u8]) -> usize
    requires { (clean frame.now ≡ true) × (length frame.now ≤ most_bits) × (length heard.now ≤ most_bits) × (at + exchange_size (sent_heard frame.now heard.now) ≤ length log.old) × (tick < tick_bound) }
    ensures value { result ≡ exchange_size (sent_heard frame.now heard.now) }
    ensures log_after { log.new ≡ overlay log.old at (exchange_bytes tick (sent_heard frame.now heard.now)) }
{
    let first = air_log::within::put_sent(log, at, tick, frame);
    let second = air_log::within::put_heard(log, at + first, tick + 1, heard);
    first + second
}

// The reader's frame, taken by the first n cards, and its records and those of what was heard in the log.
pub fn air(
    r: Reader,
    cards: [Card; MOST_CARDS],
    n: usize,
    log: &mut [u8],
    at: usize,
    tick: usize,
) -> Aired
    requires { (n ≤ most_cards) × (at + exchange_size (exchange_of r (take n cards)) ≤ length log.old) × (tick < tick_bound) }
    ensures value { result ≡ aired r cards n }
    ensures log_after { log.new ≡ overlay log.old at (exchange_bytes tick (exchange_of r (take n cards))) }
{
    let mut frame = [0u8; 81];
    reader::within::put_frame(r, &mut frame);
    let bits = reader::within::frame_bits(r);
    let mut heard = [0u8; 45];
    let t = field::within::take_all(cards, n, &frame[..bits], &mut heard);
    let bytes = put_exchange(log, at, tick, &frame[..bits], &heard[..t.bits]);
    let cards = t.cards;
    Aired {
        cards,
        heard,
        bits: t.bits,
        bytes,
    }
}

// The reader's frame on the air, and what the reader does with what it heard.
fn exchange<H: Hears>(
    r: Reader,
    path: Path,
    cards: [Card; MOST_CARDS],
    n: usize,
    log: &mut [u8],
    at: usize,
    tick: usize,
) -> Exchanged
    requires { (n ≤ most_cards) × (at + exchange_size (exchange_of r (take n cards)) ≤ length log.old) × (tick < tick_bound) }
    ensures value { result ≡ exchanged H.remembers r path cards n }
    ensures log_after { log.new ≡ overlay log.old at (exchange_bytes tick (exchange_of r (take n cards))) }
{
    let a = air(r, cards, n, log, at, tick);
    let heard = &a.heard[..a.bits];
    let cards = a.cards;
    Exchanged {
        memory: H::hear(r, path, heard),
        cards,
        bytes: a.bytes,
    }
}

// The UID that a turn has found goes into the list. The answer is how many it found.
pub fn put_found(t: Turn, list: &mut [u8], at: usize) -> usize
    requires { at + 11 * length (found_by t) ≤ length list.old }
    ensures value { result ≡ length (found_by t) }
    ensures list_after { list.new ≡ overlay list.old at (list_bytes (found_by t)) }
    ensures t_len { length (list_bytes (found_by t)) ≡ 11 * length (found_by t) }
{
    match t.answer {
        Answer::Finds(_) => {
            air_log::within::put_entry(list, at, t.reader.uid);
            1
        }
        _ => 0,
    }
}

// One exchange more of a sweep that began with the tick start.
fn step<H: Hears>(p: Progress, n: usize, start: u32, log: &mut [u8], list: &mut [u8]) -> Progress
    requires { Roomy (reached_at p) n (next_turn H.remembers p n) log.old list.old }
    ensures value { result ≡ stepped H.remembers p n }
    ensures written { Written start (reached_at p) n (next_turn H.remembers p n) log.old list.old log.new list.new }
{
    let tick = start as usize + 2 * p.frames;
    let x = exchange::<H>(
        p.memory.turn.reader,
        p.memory.path,
        p.cards,
        n,
        log,
        p.logged,
        tick,
    );
    let found = put_found(x.memory.turn, list, 11 * p.found);
    let cards = x.cards;
    Progress {
        memory: x.memory,
        cards,
        logged: p.logged + x.bytes,
        frames: p.frames + 1,
        found: p.found + found,
    }
}

// Is a frame of the reader out?
pub fn goes(a: Answer) -> bool
    ensures { result ≡ goes a }
{
    matches!(a, Answer::Sends(_) | Answer::Finds(_))
}

// Is a frame out, and may the reader send one more?
fn goes_on(p: Progress) -> bool
    ensures { result ≡ goes_on (reached_at p) }
{
    p.frames < limits::MOST_FRAMES && goes(p.memory.turn.answer)
}

// A whole sweep over the first n cards, of the reader that hears as H does, the tick of its first record start. It is called where log and list have
// room for what it writes.
pub fn run<H: Hears>(
    cards: [Card; MOST_CARDS],
    n: usize,
    start: u32,
    log: &mut [u8],
    list: &mut [u8],
) -> Progress
    requires { (n ≤ most_cards) × (log_size (swept_if H.remembers (take n cards)).exchanges ≤ length log.old) × (length (list_bytes (swept_if H.remembers (take n cards)).found) ≤ length list.old) }
    ensures result_value { reached_at result ≡ ends cards n (swept_if H.remembers (take n cards)) }
    ensures log_after { log.new ≡ overlay log.old 0 (log_bytes start (swept_if H.remembers (take n cards)).exchanges) }
    ensures list_after { list.new ≡ overlay list.old 0 (list_bytes (swept_if H.remembers (take n cards)).found) }
{
    let mut p = Progress {
        memory: memory::within::fresh(),
        cards,
        logged: 0,
        frames: 0,
        found: 0,
    };
    // Kept: no index is counted: the loop ends with the reader, and its bound is the definition's.
    while goes_on(p) {
        p = step::<H>(p, n, start, log, list);
    }
    p
}
