// What waking one known card of a row of cards in lent bytes leaves (T-03).
#![tactic(auto)]

pub mod within;

ghost use Rattle.std.specs.Prelude.{◌≡◌};
ghost use Rattle.kept_wake.specs.KeptWake.{turn_of};

use reader::{Answer, Reader};
use reader_link::{Link, LinkAnswer, LinkReader, LinkTurn};

// The turn of the whole reader that a turn of its selection is, its link being k.
fn turn_of(r: Reader, k: Link, a: Answer) -> LinkTurn
    ensures { result ≡ turn_of r k a }
{
    LinkTurn {
        reader: LinkReader { reader: r, link: k },
        answer: LinkAnswer::Selection(a),
    }
}
