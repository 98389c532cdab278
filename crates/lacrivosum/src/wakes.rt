// T-03 for C, over a row of cards' states in lent bytes: the call of crate wake on the values that the bytes say.
ghost use Rattle.std.specs.Prelude.{◌≡◌};
ghost use Rattle.uid.specs.Calls.{uid_of};
ghost use Rattle.wake_rules.specs.Claim.{Wakes};
ghost use Rattle.wake_rules.specs.Wake.{wake};
ghost use Rattle.kept_field.specs.KeptField.{cards_in};
ghost use Rattle.lacrivosum.specs.Waking.{wake_done, wake_call, wake_left, WakeUnchanged, WakeTerms, WakeSays};

use refusal::Refusal;

// The reader sends WUPA and selects the one card of the row that has this UID; no other is disturbed. 11: the reader is not new; 6: the bytes are no
// valid UID, or the row is not a field that a sweep takes; 7: no card has the UID.
#[unsafe(no_mangle)]
pub extern "C" fn lac_wake(state: &mut [u8], uid: &[u8], cards: &mut [u8], n: usize) -> usize
    ensures n_value { wake_left state.old cards.old n (wake_call state.old uid.now cards.old n) ≡ wake_done result state.new cards.new }
    ensures wake_unchanged { WakeUnchanged (wake_done 0 state.old cards.old) uid.now n (wake_done result state.new cards.new) }
    ensures wake_says { WakeTerms state.old uid.now cards.old n → WakeSays (wake (uid_of uid.now) (cards_in n cards.old)) n (wake_done 0 state.old cards.old) (wake_done result state.new cards.new) × Wakes (cards_in n cards.old) (uid_of uid.now) (wake (uid_of uid.now) (cards_in n cards.old)) }
{
    if state.len() < kept::STATE_SIZE {
        return kept::refused(Refusal::Room);
    }
    if cards.len() / kept::STATE_SIZE < n {
        return kept::refused(Refusal::Room);
    }
    let x = kept_reader::reader_of(state);
    let field = kept_field::within::cards_of(cards, n);
    let s = wake::wake(x.reader, uid, field, n);
    kept_wake::within::settle(x, s, n, state, cards)
}
