// T-05 for C, over a row of Type B cards' states in lent bytes: the call of crate slots on the values that the bytes say.
ghost use Rattle.std.specs.Prelude.{◌≡◌, false, length};
ghost use Rattle.slots_rules.specs.Claim.{Claim};
ghost use Rattle.slots_rules.specs.RunB.{inquiry};
ghost use Rattle.kept_slots.specs.KeptSlots.{drawn_in};
ghost use Rattle.lacrivosum.specs.CardLibrary.{speaks};
ghost use Rattle.lacrivosum.specs.Field.{no_field};
ghost use Rattle.lacrivosum.specs.Inquiries.{inquiry_done, asked, inquiry_call, inquiry_left, InquiryUnchanged, InquiryKept, InquiryTerms, InquirySays};

use refusal::Refusal;

// REQB, or WUPB where wake is not 0, with n slots and then the marker of each other slot, over the cards of the row, one for each slot number. 1: also
// where the list is too short; 11: the reader is not ready; 6: n, a slot number or the row is not one that a request takes.
#[unsafe(no_mangle)]
pub extern "C" fn lac_b_inquire(
    state: &mut [u8],
    wake: u8,
    n: u8,
    afi: u8,
    cards: &mut [u8],
    numbers: &[u8],
    list: &mut [u8],
) -> usize
    ensures list_value { inquiry_left (asked wake n afi numbers.now) (inquiry_done 0 state.old cards.old list.old) (inquiry_call (asked wake n afi numbers.now) (inquiry_done 0 state.old cards.old list.old)) ≡ inquiry_done result state.new cards.new list.new }
    ensures inquiry_unchanged { InquiryUnchanged (asked wake n afi numbers.now) (inquiry_done 0 state.old cards.old list.old) (inquiry_done result state.new cards.new list.new) }
    ensures inquiry_kept { no_field state.old cards.old (length numbers.now) ≡ false → InquiryKept (asked wake n afi numbers.now) (inquiry_done 0 state.old cards.old list.old) (inquiry_done result state.new cards.new list.new) (inquiry_call (asked wake n afi numbers.now) (inquiry_done 0 state.old cards.old list.old)) }
    ensures inquiry_says { InquiryTerms (asked wake n afi numbers.now) (inquiry_done 0 state.old cards.old list.old) → InquirySays (asked wake n afi numbers.now) (inquiry (speaks wake) n afi (drawn_in numbers.now cards.old)) (inquiry_done 0 state.old cards.old list.old) (inquiry_done result state.new cards.new list.new) × Claim n (drawn_in numbers.now cards.old) (inquiry (speaks wake) n afi (drawn_in numbers.now cards.old)) }
{
    if state.len() < kept::STATE_SIZE {
        return kept::refused(Refusal::Room);
    }
    if cards.len() / kept::STATE_SIZE < numbers.len() {
        return kept::refused(Refusal::Room);
    }
    let x = kept_b::reader_of(state);
    let field = kept_slots::within::cards_of(numbers, cards);
    let wakes = crate::card_calls::speaks(wake);
    let s = slots::inquire(x, wakes, n, afi, field, numbers.len(), list);
    kept_slots::within::settle(x, s, numbers.len(), list, state, cards)
}
