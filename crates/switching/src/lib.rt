// Modulus switching: Boolean shares of width mu to arithmetic ones modulo any modulus that leaves alpha bits of a word.
#![tactic(auto)]

mod conversion;
mod steps;

pub use conversion::to_modulus;
