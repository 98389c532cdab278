// Is the row a field that a sweep takes? Its cards are looked at one by one, the last first; of each only the UID is kept.
ghost use Rattle.std.specs.Prelude.{◌≡◌, true, not, ◌≤◌, ◌<◌};
ghost use Rattle.limits.specs.Limits.{most_cards};
ghost use Rattle.rows.specs.Rows.{any, same};
ghost use Rattle.uid.specs.Uid.{uid_bytes};
ghost use Rattle.sweep_rules.specs.Terms.{card_fits};
ghost use Rattle.sweep_rules.specs.Demand.{Typed};
ghost use Rattle.sweep_row.specs.Row.{none_seen, seen_with};

use card::Card;
use limits::MOST_CARDS;
use uid::{Uid, UidSize};

// fits: the cards seen so far are such a field; uids: their UIDs, each at its card's place.
#[derive(Clone, Copy)]
pub struct Seen {
    pub fits: bool,
    pub uids: [Uid; MOST_CARDS],
}

pub fn none() -> Seen
    ensures { result ≡ none_seen }
{
    Seen {
        fits: true,
        uids: [uid::within::sized(UidSize::Single, &[]); MOST_CARDS],
    }
}

// A field of this card alone is one that a sweep takes.
fn card_fits(c: Card) -> bool
    ensures value { result ≡ card_fits c }
    ensures typed { result ≡ true → Typed c }
{
    sweep_steps::within::is_within(&[c])
}

// Is the UID none of these?
fn is_alone(u: Uid, uids: &[Uid]) -> bool
    ensures { result ≡ not (any (λ v. same (uid_bytes u) (uid_bytes v)) uids.now) }
{
    !uids.iter().any(|v| uid::same_uid(u, *v))
}

fn fits_too(s: Seen, at: usize, n: usize, c: Card) -> bool
    requires { (at < n) × (n ≤ most_cards) }
    ensures value { result ≡ (seen_with s at n c).fits }
    ensures typed { result ≡ true → Typed c }
{
    s.fits && card_fits(c) && is_alone(c.uid, &s.uids[at + 1..n])
}

// The card at a place is seen, after those behind it.
pub fn see_card(s: Seen, at: usize, n: usize, c: Card) -> Seen
    requires { (at < n) × (n ≤ most_cards) }
    ensures value { result ≡ seen_with s at n c }
    ensures typed { result.fits ≡ true → Typed c }
{
    let fits = fits_too(s, at, n, c);
    let mut uids = s.uids;
    uids[at] = c.uid;
    Seen { fits, uids }
}
