// The selection of a reader kept in lent bytes.
ghost use Rattle.std.specs.Prelude.{◌≡◌, length};
ghost use Rattle.kept_reader.specs.KeptReader.{phase_tag, phase_level, phase_of, selection_bytes, selection_of};

use reader::{Phase, Reader};

// Kept: the numbers in the lent bytes are the C interface, and any byte is read: the definitions of the state name them.
fn phase_tag(p: Phase) -> u8
    ensures { result ≡ phase_tag p }
{
    match p {
        Phase::New => 0,
        Phase::ReqaSent => 1,
        Phase::AnticollisionSent(_) => 2,
        Phase::SelectSent(_) => 3,
        Phase::HltaSent => 4,
        Phase::Selected => 5,
        Phase::Finished => 6,
        Phase::WupaSent => 7,
        Phase::UidSelectSent(_) => 8,
        Phase::Stopped => 9,
    }
}

fn phase_level(p: Phase) -> u8
    ensures { result ≡ phase_level p }
{
    match p {
        Phase::AnticollisionSent(l) | Phase::SelectSent(l) | Phase::UidSelectSent(l) =>
            kept::level_tag(l),
        _ => 0,
    }
}

// Kept: the numbers in the lent bytes are the C interface, and any byte is read: the definitions of the state name them.
fn phase_of(t: u8, l: u8) -> Phase
    ensures { result ≡ phase_of t l }
{
    let level = kept::level_of(l);
    match t {
        0 => Phase::New,
        1 => Phase::ReqaSent,
        2 => Phase::AnticollisionSent(level),
        3 => Phase::SelectSent(level),
        4 => Phase::HltaSent,
        5 => Phase::Selected,
        6 => Phase::Finished,
        7 => Phase::WupaSent,
        8 => Phase::UidSelectSent(level),
        _ => Phase::Stopped,
    }
}

// A reader's selection, as bytes.
pub fn selection_bytes(r: Reader) -> [u8; 21]
    ensures value { result ≡ selection_bytes r }
    ensures five_len { (length r.five ≡ 5) × (length r.uid.bytes ≡ 10) }
{
    let f = r.five;
    let u = r.uid.bytes;
    let tag = phase_tag(r.phase);
    let level = phase_level(r.phase);
    let sweeps = kept::flag(r.sweeps);
    let size = kept::size_tag(r.uid.size);
    [
        tag, level, sweeps, f[0], f[1], f[2], f[3], f[4], r.known, size, u[0], u[1], u[2], u[3],
        u[4], u[5], u[6], u[7], u[8], u[9], r.sak,
    ]
}

// The selection of the reader that lent bytes say.
pub fn selection_of(b: &[u8]) -> Reader
    ensures { result ≡ selection_of b.now }
{
    Reader {
        phase: phase_of(kept::at(b, 0), kept::at(b, 1)),
        sweeps: kept::at(b, 2) == 1,
        five: kept::bytes_at(b, 3),
        known: kept::at(b, 8),
        uid: kept::uid_of(b),
        sak: kept::at(b, 20),
    }
}
