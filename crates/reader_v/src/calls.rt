// The host's calls. Each tests 11 (the reader is not ready), 1 (the lent row has no room for 112 bits, of a write for 8 more a byte), 6, and then sends a
// frame, which stands at the front of the lent row. A request is for one tag by its UID, for the selected one, or for every tag that is not quiet.
ghost use Rattle.reader_v.specs.CallsV.{Called, inventory_call, sweep_call, quiet_call, select_call, reset_call, read_call, reads_call, write_call, writes_call, lock_call};

use crate::{PhaseV, ReaderV, TurnV, within};
use sent_v::Mode;

// One round of an inventory. 6: not 1 or 16 slots, or a mask of over 64 or 60 bits. asks: with an AFI.
// Kept: the public calls take them one by one (docs/PROMISES.md), by value, and the definitions as well.
pub fn inventory(
    r: ReaderV,
    slots: u8,
    len: u8,
    mask: [u8; 8],
    asks: bool,
    afi: u8,
    out: &mut [u8],
) -> TurnV
    ensures { Called r (inventory_call slots len mask asks afi) out.old result out.new }
{
    let good = within::is_round(slots, len);
    let k = within::round_for(slots == 1, asks, afi, len, mask);
    let next = within::start(PhaseV::InRound, k);
    within::send_round(r, good, k, next, out)
}

// A sweep: rounds of 16 slots, from an empty mask on.
// Kept: it is a bit of the frame that is sent or heard, or a field of the reader, as the definitions have it, and picks no step.
pub fn sweep(r: ReaderV, asks: bool, afi: u8, out: &mut [u8]) -> TurnV
    ensures { Called r (sweep_call asks afi) out.old result out.new }
{
    let k = within::round_for(false, asks, afi, 0, [0; 8]);
    let next = within::start(PhaseV::InSweep, k);
    within::send_round(r, true, k, next, out)
}

// Stay quiet. It is never answered.
pub fn quiet(r: ReaderV, uid: [u8; 8], out: &mut [u8]) -> TurnV
    ensures { Called r (quiet_call uid) out.old result out.new }
{
    let k = within::head_for(Mode::Addressed, uid, false, 0x02);
    within::send_request(r, true, k, &[], &[], within::blank(PhaseV::QuietSent), out)
}

// Select.
pub fn select(r: ReaderV, uid: [u8; 8], out: &mut [u8]) -> TurnV
    ensures { Called r (select_call uid) out.old result out.new }
{
    let k = within::head_for(Mode::Addressed, uid, false, 0x25);
    within::send_request(r, true, k, &[], &[], within::blank(PhaseV::OtherSent), out)
}

// Reset to ready.
pub fn reset(r: ReaderV, m: Mode, uid: [u8; 8], out: &mut [u8]) -> TurnV
    ensures { Called r (reset_call m uid) out.old result out.new }
{
    let k = within::head_for(m, uid, false, 0x26);
    within::send_request(r, true, k, &[], &[], within::blank(PhaseV::OtherSent), out)
}

// Read one block.
pub fn read(r: ReaderV, m: Mode, uid: [u8; 8], block: u8, status: bool, out: &mut [u8]) -> TurnV
    ensures { Called r (read_call m uid block status) out.old result out.new }
{
    let k = within::head_for(m, uid, status, 0x20);
    within::send_request(r, true, k, &[block], &[], within::reading(0, status), out)
}

// Read several blocks. 6: not 1 to 256 of them.
pub fn reads(
    r: ReaderV,
    m: Mode,
    uid: [u8; 8],
    first: u8,
    count: u16,
    status: bool,
    out: &mut [u8],
) -> TurnV
    ensures { Called r (reads_call m uid first count status) out.old result out.new }
{
    let good = within::is_count(count);
    let n = within::less_one(count);
    let k = within::head_for(m, uid, status, 0x23);
    within::send_request(
        r,
        good,
        k,
        &[first, n],
        &[],
        within::reading(n, status),
        out,
    )
}

// Write one block. 6: not 1 to 32 bytes.
pub fn write(r: ReaderV, m: Mode, uid: [u8; 8], block: u8, bytes: &[u8], out: &mut [u8]) -> TurnV
    ensures { Called r (write_call m uid block bytes.now) out.old result out.new }
{
    let good = within::is_filling(1, bytes.len());
    let k = within::head_for(m, uid, false, 0x21);
    within::send_request(
        r,
        good,
        k,
        &[block],
        bytes,
        within::blank(PhaseV::OtherSent),
        out,
    )
}

// Write several blocks. 6: not 1 to 256 of them, or not as many bytes for each, 1 to 32.
pub fn writes(
    r: ReaderV,
    m: Mode,
    uid: [u8; 8],
    first: u8,
    count: u16,
    bytes: &[u8],
    out: &mut [u8],
) -> TurnV
    ensures { Called r (writes_call m uid first count bytes.now) out.old result out.new }
{
    let good = within::is_filling(count, bytes.len());
    let k = within::head_for(m, uid, false, 0x24);
    let p = [first, within::less_one(count)];
    within::send_request(r, good, k, &p, bytes, within::blank(PhaseV::OtherSent), out)
}

// Lock one block.
pub fn lock(r: ReaderV, m: Mode, uid: [u8; 8], block: u8, out: &mut [u8]) -> TurnV
    ensures { Called r (lock_call m uid block) out.old result out.new }
{
    let k = within::head_for(m, uid, false, 0x22);
    within::send_request(
        r,
        true,
        k,
        &[block],
        &[],
        within::blank(PhaseV::OtherSent),
        out,
    )
}
