// T-01: "Raw energies from the new front end". For each bit the radio chip hands over the energy of its first and of its second half; this
// crate makes a received row of them, which the frame code reads like any other.
#![tactic(auto)]

ghost use Rattle.std.specs.Prelude.{◌≡◌, length};
ghost use Rattle.front.specs.Front.{row_of};
ghost use Rattle.front.specs.Calls.{heard_says, number_of, receive_says, places_after};

mod halves;
mod tests;

// "The gate is a fixed level, a share of the strongest half heard, or off (then every row is silence)"
#[derive(Clone, Copy)]
pub enum Gate {
    Level(f32),
    Share(f32),
    Off,
}

// "it sits in a profile with the noise floor and the peak": the peak is the strongest half heard, which the caller hands in.
#[derive(Clone, Copy)]
pub struct Profile {
    pub floor: f32,
    pub peak: f32,
    pub gate: Gate,
}

// Why the energies make no row. The lent places are unchanged.
#[derive(Clone, Copy, Debug, PartialEq, Eq)]
pub enum NotHeard {
    // 1: there are fewer places than whole bits were handed in
    NoRoom,
    // 13: a number that is no energy, a share or a level that is none, or half a bit
    NotEnergies,
}

// The energies of the halves, first half of the first bit first, as a received row: 0, 1, and 2 for a collided bit. It stands at the front of the
// lent places, and the answer is how many bits it has (none: silence). It asks for a place for each whole bit handed in. Tested 1, then 13.
pub fn receive(profile: Profile, halves: &[f32], places: &mut [u8]) -> Result<usize, NotHeard>
    ensures result_value { heard_says result ≡ receive_says (length places.old) profile halves.now }
    ensures places_after { places.new ≡ places_after result (row_of profile halves.now) places.old }
{
    if places.len() < halves.len() / 2 {
        return Err(NotHeard::NoRoom);
    }
    let level = halves::level_of(profile.gate, profile.peak);
    if !tests::is_taken(profile, level, halves) {
        return Err(NotHeard::NotEnergies);
    }
    match profile.gate {
        Gate::Off => Ok(0),
        _ => Ok(halves::write(level, profile.floor, halves, places)),
    }
}

// The number of a refusal; 0 where there is none.
// Kept: docs/PROMISES.md names it, and 0 for no refusal is no conversion of one.
pub fn number(h: Result<usize, NotHeard>) -> u8
    ensures { result ≡ number_of h }
{
    match h {
        Ok(_) => 0,
        Err(NotHeard::NoRoom) => 1,
        Err(NotHeard::NotEnergies) => 13,
    }
}
