// What the programs use: pseudo-random words, shares made of them and their sum, the checksum, and γ2 of a set. q and γ2 are written out, so that
// what is tried and what is held right do not hang on the constants that the gadgets go by.
#![tactic(auto)]

mod random;

ghost use Rattle.std.specs.Prelude.{◌<◌, ◌≤◌};

use gate::Decomposed;
pub use random::{complete, fill, minus, recombined, reduce, share, step};

// What Decompose answers, a refusal too: the number, the high part, and what the shares of the low part recombine to.
#[derive(Clone, Copy, PartialEq, Eq)]
pub struct Parts {
    pub number: u32,
    pub high: u32,
    pub low: u32,
}

impl Parts {
    pub fn of(told: Decomposed, low: &[u32]) -> Parts {
        Parts {
            number: told.number,
            high: told.high,
            low: recombined(low),
        }
    }
}

// The low 32 bits of a count.
pub fn low(n: usize) -> u32 {
    (n % 4294967296) as u32
}

// A word into the checksum.
pub fn mix(sum: u32, v: u32) -> u32 {
    sum.wrapping_mul(16777619).wrapping_add(v)
}

// A number that is no set counts as 87: a call with it is refused whatever its shares are worth.
pub fn gamma2(set: u32) -> u32
    ensures { (0 < result) × (result ≤ 261888) }
{
    match set {
        44 => 95232,
        _ => 261888,
    }
}
