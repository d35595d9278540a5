// One halving, 2m to m. Nothing here divides by a variable.
// The loops along an array have eight turns, or end at the last share, and write each word once: so they can be unrolled and the words stay in
// registers. A single store just before the array is copied costs more than the arithmetic.
#![tactic(auto)]

mod parity;
mod steps;

pub use parity::joined;
pub use steps::halve;
