// Both sweeps for C, over a row of cards' states in lent bytes: the calls of crates sweep and memory_sweep on the values that the bytes say.
ghost use Rattle.std.specs.Prelude.{◌≡◌};
ghost use Rattle.sweep_rules.specs.Demand.{Demand3};
ghost use Rattle.sweep_rules.specs.Run.{sweep};
ghost use Rattle.memory_rules.specs.Promise.{Remembers};
ghost use Rattle.memory_rules.specs.Run.{recalled};
ghost use Rattle.sweep.specs.Sweep.{sweep_of};
ghost use Rattle.memory_sweep.specs.Recalled.{recall_of};
ghost use Rattle.kept_field.specs.KeptField.{start_in, cards_in, field_in, frames_of};
ghost use Rattle.lacrivosum.specs.Field.{field_done, sweep_done, Unchanged, FieldTerms, FieldSays};

use refusal::Refusal;

// The plain sweep: the reader finds every idle card of the row and halts it. 1: also where log or list is too short; 11: the reader is not new;
// 6: the row is not a field that a sweep takes.
#[unsafe(no_mangle)]
pub extern "C" fn lac_sweep(
    state: &mut [u8],
    cards: &mut [u8],
    n: usize,
    tick: u32,
    log: &mut [u8],
    list: &mut [u8],
) -> usize
    ensures list_value { sweep_done state.old cards.old n log.old list.old (sweep_of (start_in state.old tick) (field_in n cards.old) n log.old list.old) ≡ field_done result state.new cards.new log.new list.new }
    ensures unchanged { Unchanged (field_done 0 state.old cards.old log.old list.old) (sweep_of (start_in state.old tick) (field_in n cards.old) n log.old list.old) (field_done result state.new cards.new log.new list.new) }
    ensures field_says { FieldTerms state.old cards.old n log.old list.old → FieldSays (sweep (cards_in n cards.old)) tick n (field_done 0 state.old cards.old log.old list.old) (field_done result state.new cards.new log.new list.new) × Demand3 (cards_in n cards.old) (sweep (cards_in n cards.old)) }
{
    if state.len() < kept::STATE_SIZE {
        return kept::refused(Refusal::Room);
    }
    if cards.len() / kept::STATE_SIZE < n {
        return kept::refused(Refusal::Room);
    }
    let start = kept_field::start_of(state, tick);
    let field = kept_field::within::cards_of(cards, n);
    let s = sweep::sweep(start, field, n, log, list);
    kept_field::within::settle(s, n, state, cards)
}

// The sweep that remembers (T-14): the same list and the same cards, in fewer frames. Its refusals are the plain sweep's.
#[unsafe(no_mangle)]
pub extern "C" fn lac_sweep_remember(
    state: &mut [u8],
    cards: &mut [u8],
    n: usize,
    tick: u32,
    log: &mut [u8],
    list: &mut [u8],
) -> usize
    ensures list_value { sweep_done state.old cards.old n log.old list.old (recall_of (start_in state.old tick) (field_in n cards.old) n log.old list.old) ≡ field_done result state.new cards.new log.new list.new }
    ensures unchanged { Unchanged (field_done 0 state.old cards.old log.old list.old) (recall_of (start_in state.old tick) (field_in n cards.old) n log.old list.old) (field_done result state.new cards.new log.new list.new) }
    ensures field_says { FieldTerms state.old cards.old n log.old list.old → FieldSays (recalled (cards_in n cards.old)) tick n (field_done 0 state.old cards.old log.old list.old) (field_done result state.new cards.new log.new list.new) × Remembers (cards_in n cards.old) (recalled (cards_in n cards.old)) }
{
    if state.len() < kept::STATE_SIZE {
        return kept::refused(Refusal::Room);
    }
    if cards.len() / kept::STATE_SIZE < n {
        return kept::refused(Refusal::Room);
    }
    let start = kept_field::start_of(state, tick);
    let field = kept_field::within::cards_of(cards, n);
    let s = memory_sweep::sweep(start, field, n, log, list);
    kept_field::within::settle(s, n, state, cards)
}

// The frames that the last sweep sent.
#[unsafe(no_mangle)]
pub extern "C" fn lac_frames(state: &[u8]) -> usize
    ensures { result ≡ frames_of state.now }
{
    kept::number_at(state, 54)
}
