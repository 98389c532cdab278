// Is a field one that a request takes? `inquire` declines any other with 6.
ghost use Rattle.std.specs.Prelude.{◌≡◌, true, not, ◌≤◌, length};
ghost use Rattle.limits.specs.Limits.{most_cards};
ghost use Rattle.rows.specs.Rows.{All, any, same};
ghost use Rattle.selection_b.specs.TypeB.{is_slots};
ghost use Rattle.slots_rules.specs.Claim.{Typed};
ghost use Rattle.slots_rules.specs.TermsB.{idle_or_halted, card_fits, all_fit, apart, within};

use card_b::StateB;
use field_b::Drawn;

fn is_idle_or_halted(s: StateB) -> bool
    ensures { result ≡ idle_or_halted s }
{
    matches!(s, StateB::Idle | StateB::Halt)
}

// Idle or halted, and a slot number from 1 to n.
#[tactic(auto, using(std::proofs::lemmas::Bool::Decides::nat_tests), unfolding(slots_rules::specs::TermsB::card_fits))]
pub fn card_fits(n: u8, d: Drawn) -> bool
    ensures value { result ≡ card_fits n d }
    ensures typed { Typed d }
{
    is_idle_or_halted(d.card.state) && card_b::within::is_drawn(d.number, n)
}

fn all_fit(n: u8, cards: &[Drawn]) -> bool
    ensures value { result ≡ all_fit n cards.now }
    ensures all { result ≡ true → All Typed cards.now }
{
    for d in cards {
        if !card_fits(n, *d) {
            return false;
        }
    }
    true
}

// Has a card this PUPI?
pub fn is_pupi(pupi: [u8; 4], d: Drawn) -> bool
    ensures { result ≡ same pupi d.card.pupi }
{
    rows::is_same(&pupi, &d.card.pupi)
}

// Has none of the cards this PUPI?
fn is_alone(pupi: [u8; 4], cards: &[Drawn]) -> bool
    ensures { result ≡ not (any (λ k. same pupi k.card.pupi) cards.now) }
{
    !cards.iter().any(|d| is_pupi(pupi, *d))
}

// Is no PUPI there twice?
fn is_apart(cards: &[Drawn]) -> bool
    ensures { result ≡ apart cards.now }
{
    for (i, d) in cards.iter().enumerate() {
        if !is_alone(d.card.pupi, &cards[i + 1..]) {
            return false;
        }
    }
    true
}

// Are the cards such a field?
#[tactic(auto, using(std::proofs::lemmas::Bool::Decides::nat_tests), unfolding(slots_rules::specs::TermsB::within))]
pub fn is_within(n: u8, cards: &[Drawn]) -> bool
    requires { length cards.now ≤ most_cards }
    ensures value { result ≡ within n cards.now }
    ensures all { result ≡ true → (All Typed cards.now × (is_slots n ≡ true)) }
{
    selection_b::sent::is_slots(n) && all_fit(n, cards) && is_apart(cards)
}
