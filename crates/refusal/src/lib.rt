// Why the core declines: one case for each row of document 01's table, "When the core declines".
#![tactic(auto)]

ghost use Rattle.std.specs.Prelude.{◌≡◌};
ghost use Rattle.refusal.specs.Refusal.{number_of, place_of};

#[derive(Clone, Copy, Debug, PartialEq, Eq)]
pub enum Refusal {
    // 1: lent room shorter than asked
    Room,
    // 2: a bit count that the awaited frame can't have
    Length,
    // 3: wrong parity; the index, from 0, of the first byte whose parity is wrong among those checked
    Parity(u8),
    // 4: wrong CRC_A
    Crc,
    // 5: wrong B byte
    Check,
    // 6: an argument that the core does not take
    Argument,
    // 7: silence where an answer is needed
    Silence,
    // 8: a collided bit where none may be
    Collision,
    // 9: a value or block that the rules forbid
    Forbidden,
    // 10: a message over 4,096 bytes or over the buffer
    TooLong,
    // 11: a call or frame that isn't due
    NotDue,
    // 12: repeats used up
    Repeats,
}

// The number that document 01's table gives a refusal.
// Kept: the table's twelve rows; docs/PROMISES.md names `number` and `place`, and two numbers of one case are no conversion.
pub fn number(r: Refusal) -> u8
    ensures { result ≡ number_of r }
{
    match r {
        Refusal::Room => 1,
        Refusal::Length => 2,
        Refusal::Parity(_) => 3,
        Refusal::Crc => 4,
        Refusal::Check => 5,
        Refusal::Argument => 6,
        Refusal::Silence => 7,
        Refusal::Collision => 8,
        Refusal::Forbidden => 9,
        Refusal::TooLong => 10,
        Refusal::NotDue => 11,
        Refusal::Repeats => 12,
    }
}

// The byte index that comes with a refusal (T-07): where the parity broke, and 0 for every other refusal.
pub fn place(r: Refusal) -> u8
    ensures { result ≡ place_of r }
{
    match r {
        Refusal::Parity(b) => b,
        _ => 0,
    }
}
