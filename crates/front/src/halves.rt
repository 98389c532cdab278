// The level, which halves are loaded, and the bits that they make.
ghost use Rattle.std.specs.Prelude.{◌≡◌, ◌/◌, ◌≤◌, length};
ghost use Rattle.rows.specs.Rows.{overlay};
ghost use Rattle.front.specs.Front.{level_of, loaded, ending, bit_of, row_at};

use crate::Gate;

// The gate's own level, or "a share times the profile's peak"; 0 where the gate is off and has none.
pub fn level_of(gate: Gate, peak: f32) -> f32
    ensures { result ≡ level_of gate peak }
{
    match gate {
        Gate::Level(level) => level,
        Gate::Share(share) => share * peak,
        Gate::Off => 0.0,
    }
}

// "A half is loaded when its energy is at least the level and above the floor"
fn is_loaded(level: f32, floor: f32, energy: f32) -> bool
    ensures { result ≡ loaded level floor energy }
{
    energy >= level && energy > floor
}

// "neither the end"
fn is_end(first: bool, second: bool) -> bool
    ensures { result ≡ ending first second }
{
    !first && !second
}

// "Only the first half loaded is a 1, only the second a 0, both a collision"
fn bit_of(first: bool, second: bool) -> u8
    ensures { result ≡ bit_of first second }
{
    match (first, second) {
        (true, true) => 2,
        (true, false) => 1,
        (false, _) => 0,
    }
}

// Writes the bits up to the end to the front of the places, and says how many they are.
pub fn write(level: f32, floor: f32, halves: &[f32], places: &mut [u8]) -> usize
    requires { length halves.now / 2 ≤ length places.old }
    ensures value { result ≡ length (row_at level floor halves.now) }
    ensures places_after { places.new ≡ overlay places.old 0 (row_at level floor halves.now) }
{
    for (i, pair) in halves.chunks_exact(2).enumerate() {
        let first = is_loaded(level, floor, pair[0]);
        let second = is_loaded(level, floor, pair[1]);
        if is_end(first, second) {
            return i;
        }
        places[i] = bit_of(first, second);
    }
    halves.len() / 2
}
