// The front end's energies (T-01) for C: a received row made of them.
ghost use Rattle.std.specs.Prelude.{◌≡◌, length};
ghost use Rattle.front.specs.Front.{row_of};
ghost use Rattle.front.specs.Calls.{heard_says};
ghost use Rattle.lacrivosum.specs.Frames.{said_number, said_left};
ghost use Rattle.lacrivosum.specs.Fronts.{gate_of, profile_of, front_says};

use front::{Gate, NotHeard, Profile};
use refusal::Refusal;

// The gate of its number: 1 a level, 2 a share, else off.
fn gate_of(gate: u8, value: f32) -> Gate
    ensures { result ≡ gate_of gate value }
{
    if gate == 1 {
        return Gate::Level(value);
    }
    if gate == 2 {
        return Gate::Share(value);
    }
    Gate::Off
}

// The bits written, or minus the refusal's number.
fn heard_number(h: Result<usize, NotHeard>) -> usize
    ensures { result ≡ said_number (heard_says h) }
{
    match h {
        Ok(n) => n,
        Err(NotHeard::NoRoom) => 18446744073709551615,
        Err(NotHeard::NotEnergies) => 18446744073709551603,
    }
}

// The energies of the halves as a received row at the front of out, and how many bits it has. 6: no gate has this number; 1: out has no place for
// each whole bit handed in; 13: a number that is no energy, a level or a share that is none, or half a bit.
#[unsafe(no_mangle)]
pub extern "C" fn lac_front(
    gate: u8,
    value: f32,
    floor: f32,
    peak: f32,
    halves: &[f32],
    out: &mut [u8],
) -> usize
    ensures value { result ≡ said_number (front_says gate (length out.old) (profile_of gate value floor peak) halves.now) }
    ensures out_after { out.new ≡ said_left (front_says gate (length out.old) (profile_of gate value floor peak) halves.now) (row_of (profile_of gate value floor peak) halves.now) out.old }
{
    if gate > 2 {
        return kept::refused(Refusal::Argument);
    }
    let profile = Profile {
        floor: floor,
        peak: peak,
        gate: gate_of(gate, value),
    };
    let h = front::receive(profile, halves, out);
    heard_number(h)
}
