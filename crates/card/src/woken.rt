// T-03: the second states. A card that WUPA woke from Halt (woken) is in Ready* and Active* where another is in Ready and Active. All that
// differs is where "else" leads.
// Kept: woken is a bool, as it is in the definitions home, ready_in and active_in; a type of two names would be turned back into it in each contract.
ghost use Rattle.std.specs.Prelude.{◌≡◌};
ghost use Rattle.card.specs.Card.{home, ready_in, active_in};

use crate::CardState;
use uid::Level;

// Where a mismatch or an error leads.
pub fn home(woken: bool) -> CardState
    ensures { result ≡ home woken }
{
    if woken {
        CardState::Halt
    } else {
        CardState::Idle
    }
}

pub fn ready_in(woken: bool, l: Level) -> CardState
    ensures { result ≡ ready_in woken l }
{
    if woken {
        CardState::ReadyStar(l)
    } else {
        CardState::Ready(l)
    }
}

pub fn active_in(woken: bool) -> CardState
    ensures { result ≡ active_in woken }
{
    if woken {
        CardState::ActiveStar
    } else {
        CardState::Active
    }
}
