// The calls of the public gadgets, and what is kept of their answers.
#![tactic(auto)]

mod far;
mod tally;

use conversions::{to_arithmetic, to_mod_q};
use decomposes::decompose;
pub use far::far_counts;
use gate::{Answer, Decomposed, Judged};
use judges::verdict;
use pairs::{Gadget, Pair};
use refreshes::{refresh, refresh_boolean};
use samplers::{sample, sample_polynomial};
use shifts::{shift, to_boolean};
pub use tally::Tally;
use widens::widen;

// What a gadget answers.
#[derive(Clone, Copy)]
pub enum Told {
    Answer(Answer),
    Parts(Decomposed),
    Verdict(Judged),
}

impl Told {
    pub fn number(self) -> u32 {
        match self {
            Told::Answer(told) => told.number,
            Told::Parts(told) => told.number,
            Told::Verdict(told) => told.number,
        }
    }

    // The words used.
    pub fn used(self) -> usize {
        match self {
            Told::Answer(told) => told.used,
            Told::Parts(told) => told.used,
            Told::Verdict(told) => told.used,
        }
    }
}

// A call, on whatever tape. Of the shares a sampler is given the count alone.
#[derive(Clone, Copy)]
pub struct Call<'a> {
    pub gadget: Gadget,
    pub p: Pair,
    pub shares: &'a [u32],
    // how many words the output slice has
    pub room: usize,
}

impl Call<'_> {
    // The output slice is the beginning of the array, and does not go beyond it. The verdict has none.
    pub fn told(self, tape: &[u32], array: &mut [u32]) -> Told {
        let room = self.room.min(array.len());
        let out = &mut array[..room];
        let shares = self.shares;
        let p = self.p;
        Told::Answer(match self.gadget {
            Gadget::Refresh => refresh(shares, tape, p.first, out),
            Gadget::RefreshBoolean => refresh_boolean(shares, tape, p.first, out),
            Gadget::Shift => shift(shares, tape, p.first, p.second, out),
            Gadget::ToBoolean => to_boolean(shares, tape, p.first, out),
            Gadget::ToArithmetic => to_arithmetic(shares, tape, p.first, out),
            Gadget::ToModQ => to_mod_q(shares, tape, p.first, out),
            Gadget::Sample => sample(tape, shares.len(), p.first, out),
            Gadget::SamplePolynomial => sample_polynomial(tape, shares.len(), p.first, out),
            Gadget::Widen => widen(shares, tape, p.first, p.second, out),
            Gadget::Decompose => return Told::Parts(decompose(shares, tape, p.first, out)),
            Gadget::Verdict => return Told::Verdict(verdict(shares, tape, p.first, p.second)),
        })
    }
}
