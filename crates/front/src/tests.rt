// What is refused with 13.
ghost use Rattle.std.specs.Prelude.{◌≡◌};
ghost use Rattle.front.specs.Front.{energy, energies, level_taken, share_taken, gate_taken, taken_at};

use crate::{Gate, Profile};

// Is this number an energy: no NaN, no infinity, not below zero? Minus zero is zero. 1.0 / 0.0 is the infinity above zero.
fn is_energy(x: f32) -> bool
    ensures { result ≡ energy x }
{
    x >= 0.0 && x < 1.0 / 0.0
}

// Are all halves energies, those after the end too?
fn are_energies(halves: &[f32]) -> bool
    ensures { result ≡ energies halves.now }
{
    for x in halves {
        if !is_energy(*x) {
            return false;
        }
    }
    true
}

// Is this a fixed level: an energy, and not zero?
fn is_level(own: f32) -> bool
    ensures { result ≡ level_taken own }
{
    is_energy(own) && own != 0.0
}

// Is this a share, above 0 and at most 1, and the level that it comes to not zero?
fn is_share(share: f32, level: f32) -> bool
    ensures { result ≡ share_taken share level }
{
    share > 0.0 && share <= 1.0 && level != 0.0
}

// Is this a gate, and does it come to a level that is not zero? Off comes to none.
fn is_gate(gate: Gate, level: f32) -> bool
    ensures { result ≡ gate_taken gate level }
{
    match gate {
        Gate::Level(own) => is_level(own),
        Gate::Share(share) => is_share(share, level),
        Gate::Off => true,
    }
}

// Is all that was handed over taken, the gate coming to this level? Else it is refused with 13.
pub fn is_taken(profile: Profile, level: f32, halves: &[f32]) -> bool
    ensures { result ≡ taken_at profile level halves.now }
{
    let Profile { floor, peak, gate } = profile;
    halves.len() % 2 == 0
        && are_energies(halves)
        && is_energy(floor)
        && is_energy(peak)
        && is_gate(gate, level)
}
