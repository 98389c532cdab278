// A reader that remembers (T-14, crate memory) kept in lent bytes: the reader of a sweep, and its path.
#![tactic(auto, unfolding(crate::specs::KeptMemory::start_on))]

pub mod within;

ghost use Rattle.std.specs.Prelude.{◌≡◌, ◌<◌, length};
ghost use Rattle.reader.specs.Calls.{row_after};
ghost use Rattle.kept_reader.specs.KeptReader.{selection_length};
ghost use Rattle.kept_memory.specs.KeptMemory.{start_on, told_bytes, path_bytes, stays, Fits};

use memory::{Memory, Path};
use reader::{Answer, Reader};

// The bytes that the state of a reader that remembers asks for.
pub const MEMORY_SIZE: usize = 192;

// Begins a sweep by the reader r with the path p. Where that is refused the path stays, as the reader does.
pub fn start_sweep(r: Reader, p: Path, out: &mut [u8]) -> Memory
    ensures value { result ≡ start_on r p (length out.old) }
    ensures out_after { out.new ≡ row_after result.turn out.old }
{
    let m = memory::start_sweep(r, out);
    if kept_reader::selection_refuses(m.turn.answer) {
        return Memory { path: p, ..m };
    }
    m
}

// What stands between the reader and the path: where a whole reader has its link zeros, then the answer's event and length, then zeros.
fn told_bytes(a: Answer) -> [u8; 43]
    ensures value { result ≡ told_bytes a }
    ensures a_bound { selection_length a < 18446744073709551616 }
{
    let mut b = [0u8; 43];
    b[24] = kept_reader::selection_event(a);
    rows::within::put(&mut b, 25, &kept::word(kept_reader::selection_length(a)));
    b
}

// A path, as bytes.
fn path_bytes(p: Path) -> [u8; 128]
    ensures value { result ≡ path_bytes p }
    ensures fits { Fits p }
{
    let mut b = [0u8; 128];
    rows::within::put(&mut b, 0, &kept::word(p.known));
    rows::within::put(&mut b, 8, &p.row);
    b
}

// Was a call on the reader r with the path p refused, and do both stay what they were?
fn stays(r: Reader, p: Path, m: Memory) -> bool
    ensures value { result ≡ stays r p m }
    ensures five_len { (length r.five ≡ 5) × (length r.uid.bytes ≡ 10) × (length m.turn.reader.five ≡ 5) × (length m.turn.reader.uid.bytes ≡ 10) × Fits p × Fits m.path }
{
    let reader_was = kept_reader::select::selection_bytes(r);
    let reader_stays = reader_was == kept_reader::select::selection_bytes(m.turn.reader);
    let path_stays = path_bytes(p) == path_bytes(m.path);
    kept_reader::selection_refuses(m.turn.answer) && reader_stays && path_stays
}
