// The reader that remembers (T-14) for C, stepped by hand: its state has its path too, so it is longer than that of the other calls. A call decodes
// reader and path, makes the call of crate memory by value, and encodes what it leaves; nothing is written where that call is refused and both
// stay what they were. Both calls are 1 on a state that is too short.
ghost use Rattle.std.specs.Prelude.{◌≡◌, ◌≤◌, length};
ghost use Rattle.memory.specs.Calls.{hear_call};
ghost use Rattle.kept_reader.specs.KeptReader.{selection_of};
ghost use Rattle.kept_memory.specs.KeptMemory.{memory_size, path_in, start_on, memory_in, memory_after};
ghost use Rattle.lacrivosum.specs.Library.{done};
ghost use Rattle.lacrivosum.specs.Memories.{memory_done};

use refusal::Refusal;

// Begins a sweep that remembers. 11: the reader is not new; 1.
#[unsafe(no_mangle)]
pub extern "C" fn lac_memory_sweep(state: &mut [u8], out: &mut [u8]) -> usize
    ensures out_value { memory_done state.old out.old (start_on (selection_of state.old) (path_in state.old) (length out.old)) ≡ done result state.new out.new }
    ensures state_after { memory_size ≤ length state.old → memory_in state.new ≡ memory_after state.old (start_on (selection_of state.old) (path_in state.old) (length out.old)) }
{
    if state.len() < kept_memory::MEMORY_SIZE {
        return kept::refused(Refusal::Room);
    }
    let r = kept_reader::select::selection_of(state);
    let p = kept_memory::within::path_of(state);
    let m = kept_memory::start_sweep(r, p, out);
    kept_memory::within::settle(r, p, m, state)
}

// The reader hears a row; its next frame goes to out. 11: no row is due; 1.
#[unsafe(no_mangle)]
pub extern "C" fn lac_memory_hear(state: &mut [u8], row: &[u8], out: &mut [u8]) -> usize
    ensures out_value { memory_done state.old out.old (hear_call (selection_of state.old) (path_in state.old) row.now (length out.old)) ≡ done result state.new out.new }
    ensures state_after { memory_size ≤ length state.old → memory_in state.new ≡ memory_after state.old (hear_call (selection_of state.old) (path_in state.old) row.now (length out.old)) }
{
    if state.len() < kept_memory::MEMORY_SIZE {
        return kept::refused(Refusal::Room);
    }
    let r = kept_reader::select::selection_of(state);
    let p = kept_memory::within::path_of(state);
    let m = memory::hear(r, p, row, out);
    kept_memory::within::settle(r, p, m, state)
}
