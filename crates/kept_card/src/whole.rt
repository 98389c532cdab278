// A whole card kept in lent bytes: the card, its end of the block protocol, and what its host was told last.
ghost use Rattle.std.specs.Prelude.{◌≡◌, ◌<◌};
ghost use Rattle.kept.specs.Kept.{told_length};
ghost use Rattle.kept_card.specs.KeptWhole.{told_bytes, link_card_of};

use block::Told;
use card_link::LinkCard;

// The whole card that lent bytes say.
pub fn link_card_of(b: &[u8]) -> LinkCard
    ensures { result ≡ link_card_of b.now }
{
    LinkCard {
        card: crate::card_of(b),
        link: crate::link::link_of(b),
    }
}

// What a host is told, as nine bytes.
pub fn told_bytes(t: Told) -> [u8; 9]
    ensures value { result ≡ told_bytes t }
    ensures t_bound { told_length t < 18446744073709551616 }
{
    let w = kept::word(kept::told_length(t));
    [
        kept::told_event(t),
        w[0],
        w[1],
        w[2],
        w[3],
        w[4],
        w[5],
        w[6],
        w[7],
    ]
}
