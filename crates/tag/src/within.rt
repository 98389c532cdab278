// The tag's rules. Called by our own crates only: firmware calls those of the crate itself.
ghost use Rattle.std.specs.Prelude.{◌≡◌, true, false, ◌+◌, ◌*◌, ◌≤◌, ◌<◌, length, drop, [], ◌∷◌};
ghost use Rattle.rows.specs.Rows.{overlay};
ghost use Rattle.frame.specs.Frame.{air_bits, bytes_of};
ghost use Rattle.frame_b.specs.FrameB.{frame_b};
ghost use Rattle.frame_v.specs.FrameV.{bytes_in, sound};
ghost use Rattle.tag.specs.Memory.{geometry, status_of, shown, shown_from};
ghost use Rattle.tag.specs.Tag.{with_state, waiting, state_after, row_of, memory_after, locks_after, told, waits, powered, takes, answers, takes_eof, answers_eof};
ghost use Rattle.request_v.specs.Request.{deed_of};
ghost use Rattle.tag.specs.Calls.{room_for, is_short, answer_of, taken};
ghost use Rattle.tag.specs.Safe.{Safe};

use crate::TakenV;
use refusal::Refusal;
use request_v::{Deed, StateV, Tag};

// ---- states

pub fn with_state(t: Tag, y: StateV) -> Tag
    ensures { result ≡ with_state t y }
{
    Tag { state: y, ..t }
}

pub fn waiting(n: u8, y: StateV) -> StateV
    ensures { result ≡ waiting n y }
{
    match y {
        StateV::Ready(_) => StateV::Ready(n),
        StateV::Selected(_) => StateV::Selected(n),
        _ => y,
    }
}

pub fn waits(y: StateV) -> u8
    ensures { result ≡ waits y }
{
    match y {
        StateV::Ready(n) | StateV::Selected(n) => n,
        _ => 0,
    }
}

pub fn state_after(d: Deed, y: StateV) -> StateV
    ensures { result ≡ state_after d y }
{
    match d {
        Deed::Quiets => StateV::Quiet,
        Deed::Drops | Deed::Resets => StateV::Ready(0),
        Deed::Waits(n) => waiting(n, y),
        Deed::Selects => StateV::Selected(0),
        _ => waiting(0, y),
    }
}

// ---- what a read shows

#[tactic(auto, using(std::proofs::lemmas::Bool::Decides::nat_tests))]
fn status_of(l: u8) -> u8
    ensures { result ≡ status_of l }
{
    u8::from(l != 0)
}

// A block at byte `at` of a row, its status ahead of it if asked for. The answer is how many bytes it takes.
fn put_block(
    memory: &[u8],
    locks: &[u8],
    size: usize,
    b: usize,
    status: bool,
    out: &mut [u8],
    at: usize,
) -> usize
    requires { (size * b + size ≤ length memory.now) × (b < length locks.now) × (8 * (at + size + 1) ≤ length out.old) }
    ensures value { result ≡ length (shown status size memory.now locks.now b) }
    ensures upper_bound { result ≤ size + 1 }
    ensures out_after { out.new ≡ overlay out.old (8 * at) (air_bits (shown status size memory.now locks.now b)) }
{
    let block = &memory[size * b..size * b + size];
    if !status {
        frame_b::within::put_bits(out, 8 * at, block);
        return size;
    }
    frame_b::within::put_bits(out, 8 * at, &[status_of(locks[b])]);
    frame_b::within::put_bits(out, 8 * (at + 1), block);
    size + 1
}

// Blocks one behind the other, from byte 1 of a row on. The answer is the byte behind them.
fn put_shown(
    memory: &[u8],
    locks: &[u8],
    size: usize,
    first: usize,
    count: usize,
    status: bool,
    out: &mut [u8],
) -> usize
    requires { ((first + count) * size ≤ length memory.now) × (first + count ≤ length locks.now) × (8 * (1 + count * (size + 1)) ≤ length out.old) × (size ≤ 255) }
    ensures value { result ≡ 1 + length (shown_from status size memory.now locks.now first count) }
    ensures upper_bound { result ≤ 1 + count * (size + 1) }
    ensures out_after { out.new ≡ overlay out.old 8 (air_bits (shown_from status size memory.now locks.now first count)) }
{
    let mut at: usize = 1;
    // Kept: the loop counts blocks; a chain would cut them from the memory, zip them with the locks, skip and take, which is no plainer.
    for i in 0..count {
        at += put_block(memory, locks, size, first + i, status, out, at);
    }
    at
}

// The answer to a read. The answer is how many bits it has.
fn put_read(
    memory: &[u8],
    locks: &[u8],
    size: usize,
    first: usize,
    count: usize,
    status: bool,
    out: &mut [u8],
) -> usize
    requires { ((first + count) * size ≤ length memory.now) × (first + count ≤ length locks.now) × (8 * (3 + count * (size + 1)) ≤ length out.old) × (size ≤ 255) }
    ensures value { result ≡ length (frame_b (0x00 ∷ shown_from status size memory.now locks.now first count)) }
    ensures out_after { out.new ≡ overlay out.old 0 (frame_b (0x00 ∷ shown_from status size memory.now locks.now first count)) }
{
    frame_b::within::put_bits(out, 0, &[0x00]);
    let n = put_shown(memory, locks, size, first, count, status, out);
    frame_v::within::put_crc(out, n);
    8 * (n + 2)
}

// An answer of so many bytes. The answer is how many bits it has.
#[tactic(auto, using(frame_b::specs::FrameBLaws::length_frame))]
fn put_bytes(bytes: &[u8], out: &mut [u8]) -> usize
    requires { 8 * (length bytes.now + 2) ≤ length out.old }
    ensures value { result ≡ length (frame_b bytes.now) }
    ensures out_after { out.new ≡ overlay out.old 0 (frame_b bytes.now) }
{
    frame_b::within::put_frame(out, bytes);
    8 * (bytes.len() + 2)
}

fn told(t: Tag) -> [u8; 10]
    ensures { result ≡ told t }
{
    let mut bytes = [0u8; 10];
    bytes[1] = t.dsfid;
    rows::within::put(&mut bytes, 2, &t.uid);
    bytes
}

pub fn put_told(t: Tag, out: &mut [u8]) -> usize
    requires { 96 ≤ length out.old }
    ensures value { result ≡ length (frame_b (told t)) }
    ensures out_after { out.new ≡ overlay out.old 0 (frame_b (told t)) }
{
    put_bytes(&told(t), out)
}

// What a deed makes the tag send, at the front of the lent row. The answer is how many bits that are.
#[tactic(auto, using(rows::proofs::RowLaws::overlay_nil), unfolding(crate::specs::Tag::row_of))]
pub fn put_answer(t: Tag, d: Deed, row: &[u8], memory: &[u8], locks: &[u8], out: &mut [u8]) -> usize
    requires { Safe t row.now d × (t.blocks * t.size ≤ length memory.now) × (t.blocks ≤ length locks.now) × (room_for t ≤ length out.old) }
    ensures value { result ≡ length (row_of t memory.now locks.now d) }
    ensures out_after { out.new ≡ overlay out.old 0 (row_of t memory.now locks.now d) }
{
    match d {
        Deed::Nothing | Deed::Quiets | Deed::Drops | Deed::Waits(_) => 0,
        Deed::Tells => put_told(t, out),
        Deed::Fails(e) => put_bytes(&[0x01, e], out),
        Deed::Reads {
            first,
            count,
            status,
        } => put_read(memory, locks, t.size as usize, first, count, status, out),
        _ => put_bytes(&[0x00], out),
    }
}

// The sent bytes of n blocks, from byte p of the row on, become those from block a on.
fn write_blocks(row: &[u8], p: usize, n: usize, size: usize, a: usize, memory: &mut [u8])
    requires { (sound row.now ≡ true) × (p + n * size ≤ bytes_in row.now) × (size * a + size * n ≤ length memory.old) }
    ensures { memory.new ≡ overlay memory.old (size * a) (bytes_of (size * n) (drop (8 * p) row.now)) }
{
    let from = 8 * p;
    let at = size * a;
    frame_b::within::bytes_of(&row[from..], size * n, &mut memory[at..]);
}

// What a deed makes of the memory.
pub fn write_memory(t: Tag, d: Deed, row: &[u8], memory: &mut [u8])
    requires { Safe t row.now d × (t.blocks * t.size ≤ length memory.old) }
    ensures { memory.new ≡ memory_after t.size row.now d memory.old }
{
    if let Deed::Writes { first, count, from } = d {
        write_blocks(row, from, count, t.size as usize, first, memory);
    }
}

// .. and of the locks.
pub fn write_locks(t: Tag, d: Deed, row: &[u8], locks: &mut [u8])
    requires { Safe t row.now d × (t.blocks ≤ length locks.old) }
    ensures { locks.new ≡ locks_after d locks.old }
{
    if let Deed::Locks(b) = d {
        locks[b] = 1;
    }
}

// ---- tests of a call

#[tactic(auto, using(std::proofs::lemmas::Bool::Decides::nat_tests), unfolding(crate::specs::Memory::geometry))]
pub fn is_geometry(blocks: u16, size: u8) -> bool
    ensures { result ≡ geometry blocks size }
{
    matches!(blocks, 1..=256) && matches!(size, 1..=32)
}

#[tactic(auto, unfolding(crate::specs::Calls::room_for))]
fn room_for(t: Tag) -> usize
    ensures { result ≡ room_for t }
{
    let n = 8 * (3 + (t.blocks as usize) * (t.size as usize + 1));
    n.max(96)
}

#[tactic(auto, using(std::proofs::lemmas::Bool::Decides::nat_tests), unfolding(crate::specs::Calls::is_short))]
pub fn is_short(t: Tag, memory: usize, locks: usize, room: usize) -> bool
    ensures { result ≡ is_short t memory locks room }
{
    memory < (t.blocks as usize) * (t.size as usize)
        || locks < t.blocks as usize
        || room < room_for(t)
}

#[tactic(auto, using(std::proofs::lemmas::Bool::Decides::nat_tests))]
pub fn answer_of(n: usize) -> Result<Option<usize>, Refusal>
    ensures { result ≡ answer_of n }
{
    if n == 0 { Ok(None) } else { Ok(Some(n)) }
}

// ---- the rules

pub fn powered(y: StateV) -> StateV
    ensures { result ≡ powered y }
{
    match y {
        StateV::Off => StateV::Ready(0),
        _ => y,
    }
}

// A row, by the tag's rules: the answer is made ahead of what changes, since no request both reads and writes.
pub fn take_rules(t: Tag, row: &[u8], memory: &mut [u8], locks: &mut [u8], out: &mut [u8]) -> TakenV
    requires { is_short t (length memory.old) (length locks.old) (length out.old) ≡ false }
    ensures value { result ≡ taken (takes t locks.old row.now) (answers t memory.old locks.old row.now) }
    ensures memory_after { memory.new ≡ memory_after t.size row.now (deed_of t locks.old row.now) memory.old }
    ensures locks_after { locks.new ≡ locks_after (deed_of t locks.old row.now) locks.old }
    ensures out_after { out.new ≡ overlay out.old 0 (answers t memory.old locks.old row.now) }
{
    let d = request_v::within::deed(t, locks, row);
    let n = put_answer(t, d, row, memory, locks, out);
    write_memory(t, d, row, memory);
    write_locks(t, d, row, locks);
    TakenV {
        tag: with_state(t, state_after(d, t.state)),
        answer: answer_of(n),
    }
}

// An EOF, by the tag's rules.
#[tactic(auto, using(std::proofs::lemmas::Bool::Decides::nat_tests, rows::proofs::RowLaws::overlay_nil), unfolding(crate::specs::Tag::takes_eof, crate::specs::Tag::answers_eof))]
pub fn eof_rules(t: Tag, out: &mut [u8]) -> TakenV
    requires { 96 ≤ length out.old }
    ensures value { result ≡ taken (takes_eof t) (answers_eof t) }
    ensures out_after { out.new ≡ overlay out.old 0 (answers_eof t) }
{
    let w = waits(t.state);
    let n = if w == 1 { put_told(t, out) } else { 0 };
    TakenV {
        tag: with_state(t, waiting(w.saturating_sub(1), t.state)),
        answer: answer_of(n),
    }
}
