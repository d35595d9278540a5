// Decompose in shares, held to the plain one.
ghost use Rattle.std.specs.Prelude.{◌<◌, ◌≤◌};

use super::plain::decomposed;
use decomposes::decompose;
use trials::{Parts, fill, mix, share};

// A line of residues: the set and the share count; how many residues were tried, at how many the answer was wrong, and a checksum of the answers.
#[derive(Clone, Copy)]
pub struct Line {
    pub set: u32,
    pub n: usize,
    pub residues: u32,
    pub wrong: u32,
    pub sum: u32,
    // the last pseudo-random word
    x: u32,
    ghost few: { n ≤ 8 },
}

impl Line {
    pub fn start(set: u32, n: usize) -> Line
        requires { n ≤ 8 }
    {
        Line {
            set,
            n,
            residues: 0,
            wrong: 0,
            sum: 0,
            x: mix(n as u32, set),
        }
    }

    fn note(&mut self, told: Parts, right: Parts) {
        self.residues = self.residues.wrapping_add(1);
        self.wrong = self.wrong.wrapping_add(u32::from(told != right));
        self.sum = mix(mix(self.sum, told.high), told.low);
    }

    // One residue, in fresh shares and on a tape that is filled anew.
    pub fn hold(&mut self, residue: u32, tape: &mut [u32])
        requires { residue < 8380417 }
    {
        let mut shares = [0u32; 8];
        let shares = &mut shares[..self.n];
        let x = share(residue, shares, self.x);
        self.x = fill(tape, x);
        let mut low = [7u32; 8];
        let low = &mut low[..self.n];
        let told = decompose(shares, tape, self.set, low);
        self.note(Parts::of(told, low), decomposed(self.set, residue));
    }
}
