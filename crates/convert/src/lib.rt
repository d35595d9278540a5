// Boolean shares of width k to arithmetic ones mod 2^k, by a rule that calls itself on two shorter lists.
#![tactic(auto)]

mod rule;

pub use rule::to_arithmetic;
