// The reader's rules. Called by our own crates only: firmware calls those of the crate itself.
ghost use Rattle.std.specs.Prelude.{◌≡◌, true, cond, ◌+◌, ◌*◌, ◌≤◌, ◌<◌, length, set, replicate, ltb};
ghost use Rattle.rows.specs.Rows.{overlay};
ghost use Rattle.reader_v.specs.Met.{flag_of, first_met};
ghost use Rattle.reader_v.specs.ReaderV.{blank, at_round, reading, turn, stop, is_ready, is_deep, turn_of, is_more, met_after, telling, next_slot, round_of, finished, told, hear_slot, hear_quiet, done_answer, answer_turn, hear};
ghost use Rattle.answer_v.specs.Heard.{read_answer};
ghost use Rattle.reader_v.specs.HearV.{out_frame, data_in, data_room, is_short, with_bits};
ghost use Rattle.reader_v.specs.SafeV.{Safe};
ghost use Rattle.reader_v.specs.CallsV.{Called, round_call, request_call, asked_for, is_round, is_count, less_one, is_filling, round_for, head_for};

use crate::{AnswerR, PhaseV, ReaderV, TurnV};
use answer_v::{AnswerSays, SlotV, Turn};
use refusal::Refusal;
use selection_b::Held;
use sent_v::{Head, Mode, Round};

// ---- readers and turns

pub fn blank(p: PhaseV) -> ReaderV
    ensures { result ≡ blank p }
{
    let round = Round {
        one: false,
        asks: false,
        afi: 0,
        len: 0,
        mask: [0; 8],
    };
    ReaderV {
        phase: p,
        round,
        slot: 0,
        count: 0,
        status: false,
        met: [0; 240],
    }
}

pub fn turn(r: ReaderV, a: AnswerR) -> TurnV
    ensures { result ≡ turn r a }
{
    TurnV {
        reader: r,
        answer: a,
        bits: 0,
        dsfid: 0,
        uid: [0; 8],
    }
}

// "reader stopped".
fn stop(e: Refusal) -> TurnV
    ensures { result ≡ stop e }
{
    turn(blank(PhaseV::Stopped), AnswerR::Declines(e))
}

// Is a call due?
pub fn is_ready(p: PhaseV) -> bool
    ensures { result ≡ is_ready p }
{
    matches!(p, PhaseV::Ready)
}

// ---- slots that are still to come

fn flag_of(len: u8, slot: u8) -> usize
    ensures { result ≡ flag_of len slot }
{
    16 * 14usize.saturating_sub(len as usize / 4) + slot as usize
}

fn with_flag(mut met: [u8; 240], i: usize, v: u8) -> [u8; 240]
    ensures { result ≡ set met i v }
{
    if i < met.len() {
        met[i] = v;
    }
    met
}

// The first flag that is set.
fn first_met(met: [u8; 240]) -> Option<usize>
    ensures { result ≡ cond (ltb (first_met met) 240) (Some (first_met met)) None }
{
    met.iter().position(|x| *x != 0)
}

fn is_more(k: Held) -> bool
    ensures { result ≡ is_more k }
{
    matches!(k, Held::More)
}

#[tactic(auto, using(std::proofs::lemmas::Bool::Decides::nat_tests), unfolding(crate::specs::ReaderV::met_after))]
fn met_after(sweeps: bool, r: ReaderV, k: Held) -> [u8; 240]
    ensures { result ≡ met_after sweeps r k }
{
    if sweeps && is_more(k) {
        with_flag(r.met, flag_of(r.round.len, r.slot), 1)
    } else {
        r.met
    }
}

// The round of a flag.
#[tactic(auto, unfolding(crate::specs::ReaderV::round_of))]
fn round_of(k: Round, i: usize) -> Round
    requires { i < 240 }
    ensures { result ≡ round_of k i }
{
    let n = 4 * (14 - i / 16);
    Round {
        one: false,
        len: (n + 4) as u8,
        mask: sent_v::within::grown_mask(k.mask, n, (i % 16) as u8),
        ..k
    }
}

// ---- a slot

fn telling(r: ReaderV, a: AnswerR, s: SlotV) -> TurnV
    ensures { result ≡ telling r a s }
{
    let uid = s.uid;
    TurnV {
        dsfid: s.dsfid,
        uid,
        ..turn(r, a)
    }
}

fn next_slot(r: ReaderV, m: [u8; 240]) -> ReaderV
    requires { r.slot < 15 }
    ensures { result ≡ next_slot r m }
{
    ReaderV {
        slot: r.slot + 1,
        ..at_round(r.phase, r.round, m)
    }
}

fn at_round(p: PhaseV, k: Round, m: [u8; 240]) -> ReaderV
    ensures { result ≡ at_round p k m }
{
    ReaderV {
        round: k,
        met: m,
        ..blank(p)
    }
}

// A round is finished.
#[tactic(auto, using(std::proofs::lemmas::Bool::Decides::nat_tests), unfolding(crate::specs::ReaderV::finished))]
fn finished(sweeps: bool, r: ReaderV, k: Held, s: SlotV, m: [u8; 240]) -> TurnV
    ensures { result ≡ finished sweeps r k s m }
{
    let met = if sweeps { first_met(m) } else { None };
    match met {
        Some(i) => {
            let next = at_round(PhaseV::InSweep, round_of(r.round, i), with_flag(m, i, 0));
            telling(next, AnswerR::NextRound(k), s)
        }
        None => telling(blank(PhaseV::Ready), AnswerR::Ends(k), s),
    }
}

// What a slot held is told.
#[tactic(auto, using(std::proofs::lemmas::Bool::Decides::nat_tests), unfolding(crate::specs::ReaderV::told))]
fn told(sweeps: bool, r: ReaderV, k: Held, s: SlotV) -> TurnV
    ensures { result ≡ told sweeps r k s }
{
    let m = met_after(sweeps, r, k);
    if !r.round.one && r.slot < 15 {
        telling(next_slot(r, m), AnswerR::NextSlot(k), s)
    } else {
        finished(sweeps, r, k, s, m)
    }
}

fn turn_of(sweeps: bool, r: ReaderV) -> Turn
    ensures { result ≡ turn_of sweeps r }
{
    let mask = r.round.mask;
    Turn {
        one: r.round.one,
        deep: is_deep(sweeps, r.round.len),
        len: r.round.len,
        mask,
        slot: r.slot,
    }
}

#[tactic(auto, using(std::proofs::lemmas::Bool::Decides::nat_tests))]
fn is_deep(sweeps: bool, len: u8) -> bool
    ensures { result ≡ is_deep sweeps len }
{
    sweeps && 60 <= len
}

#[tactic(auto, unfolding(crate::specs::ReaderV::hear_slot))]
fn hear_slot(sweeps: bool, r: ReaderV, row: &[u8]) -> TurnV
    ensures { result ≡ hear_slot sweeps r row.now }
{
    let s = answer_v::read_slot(turn_of(sweeps, r), row);
    match s.says {
        Ok(k) => told(sweeps, r, k, s),
        Err(e) => stop(e),
    }
}

// ---- other answers

#[tactic(auto, using(selection_b::specs::HeardBLaws::is_nil_is))]
fn hear_quiet(row: &[u8]) -> TurnV
    ensures { result ≡ hear_quiet row.now }
{
    if row.is_empty() {
        turn(blank(PhaseV::Ready), AnswerR::Quieted)
    } else {
        stop(Refusal::Forbidden)
    }
}

fn done_answer(reads: bool, n: usize) -> AnswerR
    ensures { result ≡ done_answer reads n }
{
    if reads {
        AnswerR::Data(n)
    } else {
        AnswerR::Done
    }
}

fn hear_answer(reads: bool, count: u8, status: bool, row: &[u8]) -> TurnV
    ensures { result ≡ answer_turn reads (read_answer reads count status row.now) }
{
    match answer_v::read_answer(reads, count, status, row) {
        AnswerSays::Good(n) => turn(blank(PhaseV::Ready), done_answer(reads, n)),
        AnswerSays::Fails(e) => turn(blank(PhaseV::Ready), AnswerR::TagError(e)),
        AnswerSays::NotGood(e) => stop(e),
    }
}

// What a reader does with a row, by what it awaits.
#[tactic(auto, unfolding(crate::specs::ReaderV::hear))]
pub fn hear_rules(r: ReaderV, row: &[u8]) -> TurnV
    ensures { result ≡ hear r row.now }
{
    match r.phase {
        PhaseV::InRound => hear_slot(false, r, row),
        PhaseV::InSweep => hear_slot(true, r, row),
        PhaseV::QuietSent => hear_quiet(row),
        PhaseV::ReadSent => hear_answer(true, r.count, r.status, row),
        PhaseV::OtherSent => hear_answer(false, 0, false, row),
        PhaseV::Ready | PhaseV::Stopped => turn(r, AnswerR::Declines(Refusal::NotDue)),
    }
}

// ---- the call with which a row is heard

// The bytes of a read go to the front of the lent room.
#[tactic(auto, using(rows::proofs::RowLaws::overlay_nil))]
pub fn put_data(t: TurnV, row: &[u8], bytes: &mut [u8])
    requires { Safe t.answer t.reader row.now (length bytes.old) }
    ensures { bytes.new ≡ overlay bytes.old 0 (data_in t.answer row.now) }
{
    if let AnswerR::Data(n) = t.answer {
        frame_b::within::bytes_of(&row[8..], n, bytes);
    }
}

// The request of a sweep's next round, where it goes out. The answer is how many bits it has.
#[tactic(auto, using(rows::proofs::RowLaws::overlay_nil), unfolding(crate::specs::HearV::out_frame))]
pub fn put_next(t: TurnV, row: &[u8], room: usize, out: &mut [u8]) -> usize
    requires { Safe t.answer t.reader row.now room × (112 ≤ length out.old) }
    ensures value { result ≡ length (out_frame t) }
    ensures out_after { out.new ≡ overlay out.old 0 (out_frame t) }
{
    match t.answer {
        AnswerR::NextRound(_) => sent_v::within::put_round(t.reader.round, out),
        _ => 0,
    }
}

fn widest(status: bool) -> usize
    ensures value { result ≡ cond status 33 32 }
    ensures upper_bound { result ≤ 33 }
{
    if status { 33 } else { 32 }
}

fn read_room(r: ReaderV) -> usize
    ensures { result ≡ (r.count + 1) * cond r.status 33 32 }
{
    (r.count as usize + 1) * widest(r.status)
}

fn data_room(p: PhaseV, r: ReaderV) -> usize
    ensures { result ≡ data_room p r }
{
    match p {
        PhaseV::ReadSent => read_room(r),
        _ => 0,
    }
}

#[tactic(auto, using(std::proofs::lemmas::Bool::Decides::nat_tests), unfolding(crate::specs::HearV::is_short))]
pub fn is_short(r: ReaderV, room: usize, out: usize) -> bool
    ensures { result ≡ is_short r room out }
{
    room < data_room(r.phase, r) || out < 112
}

pub fn sized(t: TurnV, n: usize) -> TurnV
    ensures { result ≡ with_bits t n }
{
    TurnV { bits: n, ..t }
}

// ---- calls

// Tests 11, 1, 6; then an inventory goes out, and the reader is the next one.
#[tactic(auto, using(std::proofs::lemmas::Bool::Decides::nat_tests), unfolding(crate::specs::CallsV::call_of, crate::specs::CallsV::call_row))]
pub fn send_round(r: ReaderV, good: bool, k: Round, next: ReaderV, out: &mut [u8]) -> TurnV
    requires { good ≡ true → k.len ≤ 64 }
    ensures { Called r (round_call good k next) out.old result out.new }
{
    if !is_ready(r.phase) {
        return turn(r, AnswerR::Declines(Refusal::NotDue));
    }
    if out.len() < 112 {
        return turn(r, AnswerR::Declines(Refusal::Room));
    }
    if !good {
        return turn(r, AnswerR::Declines(Refusal::Argument));
    }
    let n = sent_v::within::put_round(k, out);
    sized(turn(next, AnswerR::Sends), n)
}

// Has a row of so many bits no room for a request with so many bytes of data?
#[tactic(auto, using(std::proofs::lemmas::Bool::Decides::nat_tests))]
fn is_narrow(room: usize, n: usize) -> bool
    ensures { result ≡ ltb room (asked_for n) }
{
    room < 112 || (room - 112) / 8 < n
}

// .. any other request.
#[tactic(auto, using(std::proofs::lemmas::Bool::Decides::nat_tests), unfolding(crate::specs::CallsV::call_of, crate::specs::CallsV::call_row))]
pub fn send_request(
    r: ReaderV,
    good: bool,
    k: Head,
    parameters: &[u8],
    bytes: &[u8],
    next: ReaderV,
    out: &mut [u8],
) -> TurnV
    requires { length parameters.now ≤ 2 }
    ensures { Called r (request_call good k parameters.now bytes.now next) out.old result out.new }
{
    if !is_ready(r.phase) {
        return turn(r, AnswerR::Declines(Refusal::NotDue));
    }
    if is_narrow(out.len(), bytes.len()) {
        return turn(r, AnswerR::Declines(Refusal::Room));
    }
    if !good {
        return turn(r, AnswerR::Declines(Refusal::Argument));
    }
    let n = sent_v::within::put_request(k, parameters, bytes, out);
    sized(turn(next, AnswerR::Sends), n)
}

// ---- arguments

#[tactic(auto, using(std::proofs::lemmas::Bool::Decides::nat_tests), unfolding(crate::specs::CallsV::is_round))]
pub fn is_round(slots: u8, len: u8) -> bool
    ensures { result ≡ is_round slots len }
{
    // Kept: the number of slots is what firmware hands in, any byte: definition is_round.
    match slots {
        1 => len <= 64,
        16 => len <= 60,
        _ => false,
    }
}

#[tactic(auto, using(std::proofs::lemmas::Bool::Decides::nat_tests), unfolding(crate::specs::CallsV::is_count))]
pub fn is_count(count: u16) -> bool
    ensures { result ≡ is_count count }
{
    matches!(count, 1..=256)
}

// Kept: no comparison: a count as the frame has it, one less.
#[tactic(auto, unfolding(crate::specs::CallsV::less_one))]
pub fn less_one(count: u16) -> u8
    ensures { result ≡ less_one count }
{
    (count.saturating_sub(1) % 256) as u8
}

#[tactic(auto, using(std::proofs::lemmas::Bool::Decides::nat_tests, crate::specs::CallLaws::count_least), unfolding(crate::specs::CallsV::is_filling))]
pub fn is_filling(count: u16, n: usize) -> bool
    ensures { result ≡ is_filling count n }
{
    if !is_count(count) {
        return false;
    }
    let c = count as usize;
    n % c == 0 && matches!(n / c, 1..=32)
}

// Kept: it is a bit of the frame that is sent or heard, or a field of the reader, as the definitions have it, and picks no step.
pub fn round_for(one: bool, asks: bool, afi: u8, len: u8, mask: [u8; 8]) -> Round
    ensures { result ≡ round_for one asks afi len mask }
{
    Round {
        one,
        asks,
        afi,
        len,
        mask,
    }
}

pub fn start(p: PhaseV, k: Round) -> ReaderV
    ensures { result ≡ at_round p k (replicate 240 0) }
{
    at_round(p, k, [0; 240])
}

pub fn head_for(m: Mode, uid: [u8; 8], option: bool, code: u8) -> Head
    ensures { result ≡ head_for m uid option code }
{
    Head {
        mode: m,
        uid,
        option,
        code,
    }
}

pub fn reading(count: u8, status: bool) -> ReaderV
    ensures { result ≡ reading count status }
{
    ReaderV {
        count,
        status,
        ..blank(PhaseV::ReadSent)
    }
}
