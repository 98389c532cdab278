// How a request is read. Called by our own crates only: firmware calls those of crate tag.
ghost use Rattle.std.specs.Prelude.{◌≡◌, true, ◌+◌, ◌*◌, ◌≤◌, ◌<◌, length};
ghost use Rattle.rows.specs.Rows.{clean};
ghost use Rattle.frame.specs.Frame.{air_bits};
ghost use Rattle.frame_b.specs.FrameB.{byte_at};
ghost use Rattle.frame_v.specs.FrameV.{sound, bytes_in};
ghost use Rattle.request_v.specs.Flags.{formed, is_off, is_quiet, is_selected, listens};
ghost use Rattle.request_v.specs.Inventory.{length_at, most_mask, is_inventory, admitted, matching, slot_of, turn_in, inventory_deed};
ghost use Rattle.request_v.specs.Request.{is_many, is_write, is_read, is_command, count_of, length_due, absent, any_locked, lock_error, option_error, error_of, unless, fails_with, done_of, command_deed, is_own, meant, is_bare, parameters_at, lone_select, quiet_deed, asked_deed, own_deed, other_deed, request_deed, deed_of};

use crate::{Deed, Flags, StateV, Tag};

// A command and its parameters: at which byte of the row they begin, how many bytes they have, and the first two of these.
#[derive(Clone, Copy)]
struct Command {
    code: u8,
    at: usize,
    bytes: usize,
    first: u8,
    second: u8,
}

// ---- the tag's state

pub fn is_off(s: StateV) -> bool
    ensures { result ≡ is_off s }
{
    matches!(s, StateV::Off)
}

fn is_quiet(s: StateV) -> bool
    ensures { result ≡ is_quiet s }
{
    matches!(s, StateV::Quiet)
}

pub fn is_selected(s: StateV) -> bool
    ensures { result ≡ is_selected s }
{
    matches!(s, StateV::Selected(_))
}

fn is_listening(s: StateV) -> bool
    ensures { result ≡ listens s }
{
    matches!(s, StateV::Ready(_) | StateV::Selected(_))
}

// ---- parts of a row

#[tactic(auto, using(std::proofs::lemmas::Bool::Decides::nat_tests), unfolding(crate::specs::Flags::formed))]
fn is_formed(q: Flags) -> bool
    ensures { result ≡ formed q }
{
    !q.extended && !q.eighth && (q.inventory || !(q.fifth && q.sixth))
}

// Byte i of a row.
fn byte(row: &[u8], i: usize) -> u8
    requires { (8 * i + 8 ≤ length row.now) × (clean row.now ≡ true) }
    ensures { result ≡ byte_at i row.now }
{
    parity::within::byte_at(row, 8 * i)
}

fn uid_bits(uid: [u8; 8]) -> [u8; 64]
    ensures { result ≡ air_bits uid }
{
    let mut bits = [0u8; 64];
    frame_b::within::put_bits(&mut bits, 0, &uid);
    bits
}

// Are the len bits at index at of a row the low bits of a UID?
pub fn is_matching(uid: [u8; 8], row: &[u8], at: usize, len: usize) -> bool
    requires { (at + len ≤ length row.now) × (len ≤ 64) }
    ensures { result ≡ matching uid row.now at len }
{
    let bits = uid_bits(uid);
    rows::is_same(&row[at..at + len], &bits[..len])
}

// The four bits of a UID above a mask.
fn slot_of(uid: [u8; 8], len: usize) -> u8
    requires { len ≤ 60 }
    ensures { result ≡ slot_of uid len }
{
    let bits = uid_bits(uid);
    parity::within::number_of(&bits[len..len + 4])
}

// ---- inventory

fn length_at(q: Flags) -> usize
    ensures value { result ≡ length_at q }
    ensures upper_bound { result ≤ 3 }
{
    if q.fifth { 3 } else { 2 }
}

fn most_mask(one: bool) -> u8
    ensures { result ≡ most_mask one }
{
    if one { 64 } else { 60 }
}

#[tactic(auto, using(std::proofs::lemmas::Bool::Decides::nat_tests), unfolding(crate::specs::Inventory::is_inventory))]
fn is_inventory(q: Flags, code: u8, n: usize, len: u8) -> bool
    ensures { result ≡ is_inventory q code n len }
{
    code == 0x01
        && !q.option
        && len <= most_mask(q.sixth)
        && n == length_at(q) + 1 + (len as usize + 7) / 8
}

#[tactic(auto, using(std::proofs::lemmas::Bool::Decides::nat_tests), unfolding(crate::specs::Inventory::admitted))]
fn is_admitted(t: Tag, q: Flags, asked: u8) -> bool
    ensures { result ≡ admitted t q asked }
{
    !q.fifth || t.supports && selection_b::taken::admits(asked, t.afi)
}

// The mask of len bits fits the UID: now, or in its slot.
#[tactic(auto, using(std::proofs::lemmas::Bool::Decides::nat_tests))]
fn turn_in(uid: [u8; 8], one: bool, len: u8) -> Deed
    requires { len ≤ most_mask one }
    ensures { result ≡ turn_in one (slot_of uid len) }
{
    if one {
        return Deed::Tells;
    }
    match slot_of(uid, len as usize) {
        0 => Deed::Tells,
        s => Deed::Waits(s),
    }
}

#[tactic(auto, using(std::proofs::lemmas::Bool::Decides::nat_tests, frame_v::specs::FrameVLaws::sound_long, frame_v::specs::FrameVLaws::sound_clear), unfolding(crate::specs::Inventory::inventory_deed))]
fn inventory_deed(t: Tag, q: Flags, row: &[u8]) -> Deed
    requires { sound row.now ≡ true }
    ensures { result ≡ inventory_deed t q row.now }
{
    let k = length_at(q);
    let len = byte(row, k);
    let code = byte(row, 1);
    let asked = byte(row, 2);
    if is_listening(t.state)
        && is_inventory(q, code, row.len() / 8 - 2, len)
        && is_admitted(t, q, asked)
        && is_matching(t.uid, row, 8 * (k + 1), len as usize)
    {
        turn_in(t.uid, q.sixth, len)
    } else {
        Deed::Nothing
    }
}

// ---- commands

#[tactic(auto, using(std::proofs::lemmas::Bool::Decides::nat_tests))]
fn is_many(code: u8) -> bool
    ensures { result ≡ is_many code }
{
    matches!(code, 0x23 | 0x24)
}

#[tactic(auto, using(std::proofs::lemmas::Bool::Decides::nat_tests))]
fn is_write(code: u8) -> bool
    ensures { result ≡ is_write code }
{
    matches!(code, 0x21 | 0x24)
}

#[tactic(auto, using(std::proofs::lemmas::Bool::Decides::nat_tests))]
fn is_read(code: u8) -> bool
    ensures { result ≡ is_read code }
{
    matches!(code, 0x20 | 0x23)
}

#[tactic(auto, using(std::proofs::lemmas::Bool::Decides::nat_tests))]
fn is_command(code: u8) -> bool
    ensures { result ≡ is_command code }
{
    matches!(code, 0x20..=0x26)
}

#[tactic(auto, using(std::proofs::lemmas::Bool::Decides::nat_tests), unfolding(crate::specs::Request::count_of))]
fn count_of(code: u8, b: u8) -> usize
    ensures value { result ≡ count_of code b }
    ensures upper_bound { result ≤ 256 }
{
    if is_many(code) {
        b as usize + 1
    } else if code <= 0x22 {
        1
    } else {
        0
    }
}

// Kept: the request's code is a byte from the air, any of them: definition length_due.
#[tactic(auto, using(std::proofs::lemmas::Bool::Decides::nat_tests), unfolding(crate::specs::Request::length_due))]
fn length_due(size: u8, code: u8, b: u8) -> usize
    ensures { result ≡ length_due size code b }
{
    match code {
        0x24 => 2 + (b as usize + 1) * (size as usize),
        0x23 => 2,
        0x21 => 1 + size as usize,
        0x25.. => 0,
        _ => 1,
    }
}

// Is one of the named blocks absent?
#[tactic(auto, using(std::proofs::lemmas::Bool::Decides::nat_tests), unfolding(crate::specs::Request::absent))]
fn is_absent(blocks: u16, a: u8, n: usize) -> bool
    requires { n ≤ 256 }
    ensures { result ≡ absent blocks a n }
{
    n != 0 && (blocks as usize) < a as usize + n
}

// Is one of the named blocks locked?
fn is_any_locked(locks: &[u8], first: usize, count: usize) -> bool
    ensures { result ≡ any_locked locks.now first count }
{
    locks.iter().skip(first).take(count).any(|l| *l != 0)
}

#[tactic(auto, using(std::proofs::lemmas::Bool::Decides::nat_tests), unfolding(crate::specs::Request::lock_error))]
fn lock_error(code: u8, locked: bool) -> Result<(), u8>
    ensures { result ≡ unless (lock_error code locked) }
{
    if locked && code == 0x22 {
        Err(0x11)
    } else if locked && is_write(code) {
        Err(0x12)
    } else {
        Ok(())
    }
}

#[tactic(auto, using(std::proofs::lemmas::Bool::Decides::nat_tests), unfolding(crate::specs::Request::option_error))]
fn option_error(q: Flags, code: u8) -> Result<(), u8>
    ensures { result ≡ unless (option_error q code) }
{
    if q.option && !is_read(code) {
        Err(0x03)
    } else {
        Ok(())
    }
}

// A command's tests, in their order; the error codes are those of the document's table 7.
#[tactic(auto, using(std::proofs::lemmas::Bool::Decides::nat_tests), unfolding(crate::specs::Request::error_of))]
fn tested(t: Tag, q: Flags, locks: &[u8], k: Command) -> Result<(), u8>
    requires { t.blocks ≤ length locks.now }
    ensures { result ≡ unless (error_of t q locks.now k.code k.bytes k.first k.second) }
{
    if !is_command(k.code) {
        return Err(0x01);
    }
    if k.bytes != length_due(t.size, k.code, k.second) {
        return Err(0x02);
    }
    let n = count_of(k.code, k.second);
    if is_absent(t.blocks, k.first, n) {
        return Err(0x10);
    }
    let locked = is_any_locked(locks, k.first as usize, n);
    lock_error(k.code, locked)?;
    option_error(q, k.code)
}

#[tactic(auto, using(std::proofs::lemmas::Bool::Decides::nat_tests), unfolding(crate::specs::Request::fails_with))]
fn fails_with(q: Flags, e: u8) -> Deed
    ensures { result ≡ fails_with q e }
{
    if e <= 0x02 && !(q.fifth || q.sixth) {
        Deed::Nothing
    } else {
        Deed::Fails(e)
    }
}

#[tactic(auto, using(std::proofs::lemmas::Bool::Decides::nat_tests), unfolding(crate::specs::Request::done_of))]
fn done_of(q: Flags, k: Command) -> Deed
    requires { k.at ≤ 10 }
    ensures { result ≡ done_of q k.code k.at k.first k.second }
{
    let first = k.first as usize;
    let count = count_of(k.code, k.second);
    match k.code {
        0x20 | 0x23 => Deed::Reads {
            first,
            count,
            status: q.option,
        },
        0x21 => Deed::Writes {
            first,
            count: 1,
            from: k.at + 1,
        },
        0x24 => Deed::Writes {
            first,
            count,
            from: k.at + 2,
        },
        0x22 => Deed::Locks(first),
        0x25 => Deed::Selects,
        _ => Deed::Resets,
    }
}

#[tactic(auto, using(std::proofs::lemmas::Bool::Decides::nat_tests), unfolding(crate::specs::Request::command_deed))]
fn command_deed(t: Tag, q: Flags, locks: &[u8], k: Command) -> Deed
    requires { (t.blocks ≤ length locks.now) × (k.at ≤ 10) }
    ensures { result ≡ command_deed t q locks.now k.code k.at k.bytes k.first k.second }
{
    match tested(t, q, locks, k) {
        Ok(()) => done_of(q, k),
        Err(e) => fails_with(q, e),
    }
}

// ---- requests

#[tactic(auto, using(std::proofs::lemmas::Bool::Decides::nat_tests, frame_v::specs::FrameVLaws::sound_long, frame_v::specs::FrameVLaws::sound_clear), unfolding(crate::specs::Request::is_own))]
fn is_own(uid: [u8; 8], row: &[u8]) -> bool
    requires { sound row.now ≡ true }
    ensures { result ≡ is_own uid row.now }
{
    10 <= row.len() / 8 - 2 && is_matching(uid, row, 16, 64)
}

#[tactic(auto, using(std::proofs::lemmas::Bool::Decides::nat_tests), unfolding(crate::specs::Request::meant))]
fn is_meant(t: Tag, q: Flags, row: &[u8]) -> bool
    requires { sound row.now ≡ true }
    ensures { result ≡ meant t q row.now }
{
    if q.sixth {
        is_own(t.uid, row)
    } else if q.fifth {
        is_selected(t.state)
    } else {
        !is_quiet(t.state)
    }
}

#[tactic(auto, using(std::proofs::lemmas::Bool::Decides::nat_tests), unfolding(crate::specs::Request::is_bare))]
fn is_bare(q: Flags, n: usize) -> bool
    ensures { result ≡ is_bare q n }
{
    q.sixth && !q.option && n == 10
}

fn parameters_at(q: Flags) -> usize
    ensures value { result ≡ parameters_at q }
    ensures upper_bound { result ≤ 10 }
{
    if q.sixth { 10 } else { 2 }
}

// Select is always addressed.
#[tactic(auto, using(std::proofs::lemmas::Bool::Decides::nat_tests))]
fn is_lone_select(code: u8, addressed: bool) -> bool
    ensures { result ≡ lone_select code addressed }
{
    code == 0x25 && !addressed
}

// Stay quiet, in its one form or another.
fn quiet_deed(bare: bool) -> Deed
    ensures { result ≡ quiet_deed bare }
{
    if bare { Deed::Quiets } else { Deed::Nothing }
}

// A request that is meant for the tag, and is neither inventory nor stay quiet.
#[tactic(auto, using(frame_v::specs::FrameVLaws::sound_long, frame_v::specs::FrameVLaws::sound_clear), unfolding(crate::specs::Request::asked_deed))]
fn asked_deed(t: Tag, q: Flags, locks: &[u8], code: u8, row: &[u8]) -> Deed
    requires { (sound row.now ≡ true) × (t.blocks ≤ length locks.now) × (parameters_at q ≤ bytes_in row.now) }
    ensures { result ≡ asked_deed t q locks.now code row.now }
{
    let at = parameters_at(q);
    let k = Command {
        code,
        at,
        bytes: row.len() / 8 - 2 - at,
        first: byte(row, at),
        second: byte(row, at + 1),
    };
    command_deed(t, q, locks, k)
}

#[tactic(auto, using(std::proofs::lemmas::Bool::Decides::nat_tests, frame_v::specs::FrameVLaws::sound_long, frame_v::specs::FrameVLaws::sound_clear), unfolding(crate::specs::Request::own_deed))]
fn own_deed(t: Tag, q: Flags, locks: &[u8], row: &[u8]) -> Deed
    requires { (sound row.now ≡ true) × (t.blocks ≤ length locks.now) × (parameters_at q ≤ bytes_in row.now) }
    ensures { result ≡ own_deed t q locks.now row.now }
{
    let code = byte(row, 1);
    match code {
        0x01 => Deed::Nothing,
        0x02 => quiet_deed(is_bare(q, row.len() / 8 - 2)),
        _ if is_lone_select(code, q.sixth) => Deed::Nothing,
        _ => asked_deed(t, q, locks, code, row),
    }
}

#[tactic(auto, using(std::proofs::lemmas::Bool::Decides::nat_tests, frame_v::specs::FrameVLaws::sound_long, frame_v::specs::FrameVLaws::sound_clear), unfolding(crate::specs::Request::other_deed))]
fn other_deed(t: Tag, q: Flags, row: &[u8]) -> Deed
    requires { sound row.now ≡ true }
    ensures { result ≡ other_deed t q row.now }
{
    let code = byte(row, 1);
    if is_selected(t.state) && code == 0x25 && is_bare(q, row.len() / 8 - 2) {
        Deed::Drops
    } else {
        Deed::Nothing
    }
}

#[tactic(auto, using(std::proofs::lemmas::Bool::Decides::nat_tests), unfolding(crate::specs::Request::request_deed))]
fn request_deed(t: Tag, q: Flags, locks: &[u8], row: &[u8]) -> Deed
    requires { (sound row.now ≡ true) × (t.blocks ≤ length locks.now) }
    ensures { result ≡ request_deed t q locks.now row.now }
{
    if is_meant(t, q, row) {
        own_deed(t, q, locks, row)
    } else {
        other_deed(t, q, row)
    }
}

// What a row makes a tag do.
#[tactic(auto, using(std::proofs::lemmas::Bool::Decides::nat_tests, frame_v::specs::FrameVLaws::sound_long, frame_v::specs::FrameVLaws::sound_clear), unfolding(crate::specs::Request::deed_of, crate::specs::Request::deed_by))]
pub fn deed(t: Tag, locks: &[u8], row: &[u8]) -> Deed
    requires { t.blocks ≤ length locks.now }
    ensures { result ≡ deed_of t locks.now row.now }
{
    if is_off(t.state) || !frame_v::is_sound(row) {
        return Deed::Nothing;
    }
    let q = crate::flags_of(byte(row, 0));
    if !is_formed(q) {
        Deed::Nothing
    } else if q.inventory {
        inventory_deed(t, q, row)
    } else {
        request_deed(t, q, locks, row)
    }
}
