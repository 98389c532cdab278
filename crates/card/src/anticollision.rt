// ANTICOLLISION as a card takes it. Called by our own crates only.
ghost use Rattle.std.specs.Prelude.{◌≡◌, ◌-◌, ◌/◌};
ghost use Rattle.card.specs.Card.{matching};

use uid::Level;

// The bits of the level that an ANTICOLLISION of n air bits sends: each ninth bit behind SEL and NVB is parity.
pub fn bits_sent(n: usize) -> usize
    ensures { result ≡ (n - 18) - (n - 18) / 9 }
{
    let behind = n.saturating_sub(18);
    behind - behind / 9
}

// Is it an ANTICOLLISION of level l that a card with these five bytes answers?
pub fn is_matching(row: &[u8], l: Level, five: [u8; 5]) -> bool
    ensures { result ≡ matching l five row.now }
{
    let k = bits_sent(row.len());
    k < 40 && selection::within::is_anticollision(row, l, k as u8, five)
}
