// The shift by t, which is t halvings, and arithmetic shares mod 2^k to Boolean ones, with a halving between bits.
#![tactic(auto)]

mod bits;
mod halvings;
mod many;

pub use halvings::{shift_by, to_boolean};
