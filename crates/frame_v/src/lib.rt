// Document 02, T-10: frames of vicinity cards as rows: whole bytes of any number with CRC_B behind them, "rows are heard as in T-05", data bits
// only. A row of 8,000 bytes is tested and closed where it stands: nothing here holds a copy of it.
#![tactic(auto)]

pub mod within;

ghost use Rattle.std.specs.Prelude.{◌≡◌};
ghost use Rattle.frame_v.specs.FrameV.{sound};

// Is a row a request that a tag can look into: whole bytes, four at least, no collided bit, right CRC_B?
#[tactic(auto, using(std::proofs::lemmas::Bool::Decides::nat_tests), unfolding(crate::specs::FrameV::sound))]
pub fn is_sound(row: &[u8]) -> bool
    ensures { result ≡ sound row.now }
{
    row.len() % 8 == 0 && 32 <= row.len() && rows::is_clean(row) && within::is_good(row)
}
