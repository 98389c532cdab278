// Is a field one that a sweep takes? `sweep` declines any other with 6.
ghost use Rattle.std.specs.Prelude.{◌≡◌, true, not, ◌||◌};
ghost use Rattle.rows.specs.Rows.{All, any, same};
ghost use Rattle.uid.specs.Uid.{uid_bytes};
ghost use Rattle.sweep_rules.specs.Terms.{is_idle, is_halt, card_fits, all_fit, apart, within};
ghost use Rattle.sweep_rules.specs.Demand.{Typed};

use card::{Card, CardState};
use limits::MOST_CARDS;
use uid::Uid;

fn is_idle_or_halt(s: CardState) -> bool
    ensures { result ≡ (is_idle s || is_halt s) }
{
    matches!(s, CardState::Idle | CardState::Halt)
}

// A valid UID, an index up to 8, Idle or Halt.
fn card_fits(c: Card) -> bool
    ensures value { result ≡ card_fits c }
    ensures typed { Typed c }
{
    uid::is_valid(c.uid) && c.index <= 8 && is_idle_or_halt(c.state)
}

fn all_fit(cards: &[Card]) -> bool
    ensures value { result ≡ all_fit cards.now }
    ensures all { result ≡ true → All Typed cards.now }
{
    cards.iter().all(|c| card_fits(*c))
}

// Has none of the cards this UID?
fn is_alone(u: Uid, cards: &[Card]) -> bool
    ensures { result ≡ not (any (λ k. same (uid_bytes u) (uid_bytes k.uid)) cards.now) }
{
    !cards.iter().any(|c| uid::same_uid(u, c.uid))
}

// Is no UID there twice?
fn is_apart(cards: &[Card]) -> bool
    ensures { result ≡ apart cards.now }
{
    let mut rest = cards;
    while let Some((c, behind)) = rest.split_first() {
        if !is_alone(c.uid, behind) {
            return false;
        }
        rest = behind;
    }
    true
}

// Are the cards such a field?
pub fn is_within(cards: &[Card]) -> bool
    ensures value { result ≡ within cards.now }
    ensures all { result ≡ true → All Typed cards.now }
{
    cards.len() <= MOST_CARDS && all_fit(cards) && is_apart(cards)
}
