// Demand 2: both ends of the block protocol joined over a channel without errors, for one message and its answer.
// specs/Exchange.antt: the run on bytes, with a fate for each frame. specs/ExchangeLaws.antt: over a channel without errors each host gets
// the other's message, once and whole, in the fewest blocks (`exchanged`).
// specs/RowExchange.antt: the run on rows, through the calls of the whole card and the whole reader. specs/RowExchangeLaws.antt: it is the
// run on bytes, and so the same holds of it (`row_exchanged`). `exchange` is this run.
// specs/Lossy.antt: the run on rows where frames may be lost or damaged, of which `row_talk` is the case without errors; `lossy` is that run.
// What holds of it is in crate lost_blocks.
#![tactic(auto, unfolding(crate::specs::Steps::hosted, crate::specs::Steps::hosted_row, crate::specs::Steps::advanced, crate::specs::Steps::begun))]

ghost use Rattle.std.specs.Prelude.{◌≡◌, true, false, cond, ℕ, ◌-◌, ◌^◌, ◌≤◌, ◌<◌, length, take, get_or};
ghost use Rattle.limits.specs.Limits.{row_room};
ghost use Rattle.rows.specs.Rows.{overlay};
ghost use Rattle.card_link.specs.CardCalls.{take_call, turn_of};
ghost use Rattle.exchange.specs.Exchange.{is_quiet};
ghost use Rattle.exchange.specs.RowExchange.{told_of, told_by, Terms};
ghost use Rattle.exchange.specs.Lossy.{heard_as, passage_of, act_of, round_by, fates_at, rounds_from};
ghost use Rattle.exchange.specs.Steps.{ends_of, acts_on, acts_row, hosted, hosted_row, count_in, last_in, advanced, begun, goes_on, Fit, state_of, round_of, outcome_of, exchange_of, lossy_of};
ghost use Rattle.exchange.specs.Promise.{Exchanges};

use block::Told;
use card_link::{CardTurn, LinkCard};
use reader::Answer;
use reader_link::{LinkAnswer, LinkReader, LinkTurn};

// After an exchange: both ends; what the reader's host was told last, Quiet if the rounds ran out; whether the card's host has answered; how
// many rounds there were; how many messages the card's host got, and how many bytes the last of them has.
#[derive(Clone, Copy)]
pub struct Outcome {
    pub reader: LinkReader,
    pub card: LinkCard,
    pub told: Told,
    pub answered: bool,
    pub rounds: usize,
    pub messages: usize,
    pub last: usize,
}

// Between two rounds: what the exchange would come to if it ended here; bits is how many air bits the reader's frame has that is out.
#[derive(Clone, Copy)]
pub struct Progress {
    pub so_far: Outcome,
    pub bits: usize,
}

// What becomes of the frames of a round, and what the card's host does if it owes an answer. A frame arrives with 0 and is lost with 1; with any
// other number noise is heard instead. The host answers with 0, waits with 255, and else asks for WTX with that value.
#[derive(Clone, Copy)]
pub struct Fates {
    pub down: u8,
    pub host: u8,
    pub up: u8,
}

// After the card's host: the card, how many air bits it has sent, and whether its host has answered.
#[derive(Clone, Copy)]
pub struct Hosted {
    pub card: LinkCard,
    pub bits: usize,
    pub answered: bool,
}

fn told_of(a: Answer) -> Told
    ensures { result ≡ told_of a }
{
    match a {
        Answer::Declines(e) => Told::Refused(e),
        _ => Told::Quiet,
    }
}

// What the reader's host is told of its message.
fn told_by(a: LinkAnswer) -> Told
    ensures { result ≡ told_by a }
{
    match a {
        LinkAnswer::Selection(s) => told_of(s),
        LinkAnswer::Opens(_) => Told::Quiet,
        LinkAnswer::Blocks(_, t) => t,
    }
}

fn is_quiet(t: Told) -> bool
    ensures { result ≡ is_quiet t }
{
    matches!(t, Told::Quiet)
}

// The card takes the reader's frame, with the answer lent that its host gave last.
// Kept: lent by the caller for one exchange each; the definitions of the exchange take them one by one.
fn card_turn(
    y: LinkCard,
    answered: bool,
    row: &[u8],
    before: &[u8],
    answer: &[u8],
    down: &mut [u8],
    out: &mut [u8],
) -> CardTurn
    ensures value { result ≡ turn_of (take_call y row.now (cond answered answer.now before.now) down.old (length out.old)) }
    ensures down_after { down.new ≡ (take_call y row.now (cond answered answer.now before.now) down.old (length out.old)).buffer }
    ensures out_after { out.new ≡ overlay out.old 0 (take_call y row.now (cond answered answer.now before.now) down.old (length out.old)).sent }
{
    let lent = if answered { answer } else { before };
    card_link::whole::take(y, row, lent, down, out)
}

// What an end hears of a frame.
fn heard_as<'a>(fate: u8, frame: &'a [u8], noise: &'a [u8]) -> &'a [u8]
    ensures { result.now ≡ heard_as (passage_of noise.now fate) frame.now }
{
    // Kept: a fate is a byte that the caller hands in, any of them: definition passage_of, and the calls of exchange and lossy, have it so.
    match fate {
        0 => frame,
        1 => &[],
        _ => noise,
    }
}

// The card's host, who owes an answer, acts. out has the card's frame at its front, if it sent one.
fn host_acts(
    y: LinkCard,
    bits: usize,
    answered: bool,
    act: u8,
    answer: &[u8],
    out: &mut [u8],
) -> Hosted
    ensures value { result ≡ acts_on (act_of act) y bits answered answer.now (length out.old) }
    ensures out_after { out.new ≡ acts_row (act_of act) y answer.now out.old }
{
    match act {
        0 => {
            let t = card_link::whole::reply(y, answer, out);
            Hosted {
                card: t.card,
                bits: t.bits,
                answered: true,
            }
        }
        255 => Hosted {
            card: y,
            bits,
            answered,
        },
        _ => {
            let t = card_link::whole::ask(y, act, out);
            Hosted {
                card: t.card,
                bits: t.bits,
                answered,
            }
        }
    }
}

// .. if it owes one.
fn host_turn(
    y: LinkCard,
    bits: usize,
    answered: bool,
    act: u8,
    answer: &[u8],
    out: &mut [u8],
) -> Hosted
    ensures value { result ≡ hosted (act_of act) y bits answered answer.now (length out.old) }
    ensures out_after { out.new ≡ hosted_row (act_of act) y answer.now out.old }
{
    if card_link::whole::is_owing(y) {
        return host_acts(y, bits, answered, act, answer, out);
    }
    Hosted {
        card: y,
        bits,
        answered,
    }
}

// How many messages the card's host got.
fn count_in(t: Told) -> usize
    ensures { result ≡ count_in t }
{
    match t {
        Told::Message(_) => 1,
        _ => 0,
    }
}

// How many bytes the last of them has.
fn last_in(t: Told, last: usize) -> usize
    ensures { result ≡ last_in t last }
{
    match t {
        Told::Message(n) => n,
        _ => last,
    }
}

// After a round: told is what the card's host was told, and turn what the reader did.
fn advance(p: Progress, told: Told, h: Hosted, turn: LinkTurn) -> Progress
    requires { (p.so_far.messages ≤ p.so_far.rounds) × (p.so_far.rounds < 2 ^ 64 - 1) }
    ensures { result ≡ advanced p told h turn }
{
    Progress {
        so_far: Outcome {
            reader: turn.reader,
            card: h.card,
            told: told_by(turn.answer),
            answered: h.answered,
            rounds: p.so_far.rounds + 1,
            messages: p.so_far.messages + count_in(told),
            last: last_in(told, p.so_far.last),
        },
        bits: reader_link::whole::bits_of(turn.answer),
    }
}

// A round: the card takes what it hears of the reader's frame, which is at the front of row, its host acts if it owes an answer, and the reader
// hears what comes of the card's frame. Its next frame is at the front of row then.
// Kept: lent by the caller for one exchange each; the definitions of the exchange take them one by one.
fn round(
    p: Progress,
    x: Fates,
    noise: &[u8],
    message: &[u8],
    before: &[u8],
    answer: &[u8],
    down: &mut [u8],
    up: &mut [u8],
    row: &mut [u8],
) -> Progress
    requires { Fit p × (p.so_far.rounds < 2 ^ 64 - 1) × (length row.old ≡ row_room) }
    ensures row_after { state_of result before.now answer.now down.new up.new row.new ≡ round_of message.now answer.now (round_by noise.now x) (state_of p before.now answer.now down.old up.old row.old) }
    ensures fit { Fit result }
{
    let was = p.so_far;
    let mut reply = [0u8; limits::ROW_ROOM];
    let t = card_turn(
        was.card,
        was.answered,
        heard_as(x.down, &row[..p.bits], noise),
        before,
        answer,
        down,
        &mut reply,
    );
    let h = host_turn(t.card, t.bits, was.answered, x.host, answer, &mut reply);
    let turn = reader_link::whole::hear(
        was.reader,
        heard_as(x.up, &reply[..h.bits], noise),
        message,
        up,
        row,
    );
    advance(p, t.told, h, turn)
}

// The number at k, 0 behind the end.
fn at(numbers: &[u8], k: usize) -> u8
    ensures { result ≡ get_or numbers.now k 0 }
{
    numbers.get(k).copied().unwrap_or(0)
}

// The numbers of round k.
fn fates_at(downs: &[u8], hosts: &[u8], ups: &[u8], k: usize) -> Fates
    ensures { result ≡ fates_at downs.now hosts.now ups.now k }
{
    Fates {
        down: at(downs, k),
        host: at(hosts, k),
        up: at(ups, k),
    }
}

// The reader's first frame is out.
fn begin(turn: LinkTurn, card: LinkCard) -> Progress
    ensures { result ≡ begun turn card }
{
    Progress {
        so_far: Outcome {
            reader: turn.reader,
            card,
            told: told_by(turn.answer),
            answered: false,
            rounds: 0,
            messages: 0,
            last: 0,
        },
        bits: reader_link::whole::bits_of(turn.answer),
    }
}

// Is a round left, and has the reader's host been told nothing?
fn goes_on(p: Progress, rounds: usize) -> bool
    ensures { result ≡ goes_on p rounds }
{
    p.so_far.rounds < rounds && is_quiet(p.so_far.told)
}

// T-11: the reader's host hands in a message over a channel that may lose or damage frames, for at most so many rounds. downs, hosts and ups
// have the numbers of each round (see `Fates`); behind their end frames arrive and the card's host answers. before is what it answered before,
// none after ATS. down is the card's message buffer, up the reader's. Firmware that rehearses losses calls `lost_blocks::exchange`.
pub fn lossy(
    reader: LinkReader,
    card: LinkCard,
    message: &[u8],
    before: &[u8],
    answer: &[u8],
    downs: &[u8],
    hosts: &[u8],
    ups: &[u8],
    noise: &[u8],
    rounds: usize,
    down: &mut [u8],
    up: &mut [u8],
) -> Outcome
    ensures { outcome_of result before.now answer.now down.new up.new ≡ lossy_of reader card message.now before.now answer.now (rounds_from noise.now downs.now hosts.now ups.now 0 rounds) down.old up.old }
{
    let mut row = [0u8; limits::ROW_ROOM];
    let turn = reader_link::whole::send(reader, message, &mut row);
    let mut p = begin(turn, card);
    // Kept: how many rounds there were is told, and the host's news ends them, so a `for` would count beside the count.
    while goes_on(p, rounds) {
        let x = fates_at(downs, hosts, ups, p.so_far.rounds);
        p = round(p, x, noise, message, before, answer, down, up, &mut row);
    }
    p.so_far
}

// The reader's host hands in a message, and the card's host answers it as soon as it is owed; before is what it answered before, none after
// ATS. At most so many rounds. down is the card's message buffer, up the reader's.
pub fn exchange(
    reader: LinkReader,
    card: LinkCard,
    message: &[u8],
    before: &[u8],
    answer: &[u8],
    rounds: usize,
    down: &mut [u8],
    up: &mut [u8],
) -> Outcome
    ensures up_after { outcome_of result before.now answer.now down.new up.new ≡ exchange_of reader card message.now before.now answer.now rounds down.old up.old }
    ensures by_index { (i j : ℕ) → Terms i j message.now answer.now rounds (ends_of reader card down.old up.old false before.now answer.now) → Exchanges i j reader card message.now before.now answer.now rounds down.old up.old result down.new up.new }
{
    lossy(
        reader, card, message, before, answer, b"", b"", b"", b"", rounds, down, up,
    )
}
