// T-01: the front end's numbers as text, and the lines that set a profile.
#![tactic(auto)]

mod numbers;
mod profiles;

pub use numbers::{of_bits, read_numbers};
pub use profiles::{profile_line, start};
