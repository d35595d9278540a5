// What Decompose and the verdict answer on shares of a residue.
#![tactic(auto)]

ghost use Rattle.std.specs.Prelude.{◌<◌, ◌≤◌, slice_index, EachIndex};

use aims::{accepted_below, reach};
use decomposes::decompose;
use gate::Judged;
use judges::verdict;
use pairs::{Gadget, Pair};
use trials::{Parts, fill, low, mix, share};

// Decompose, set 44.
pub fn decomposed(residue: u32, n: usize) -> Parts
    requires { n ≤ 8 }
{
    let mut tape = [0u32; 4096];
    let x = fill(
        &mut tape,
        mix(mix(u32::from(Gadget::Decompose), low(n)), residue),
    );
    let mut shares = [0u32; 8];
    let shares = &mut shares[..n];
    share(residue, shares, x);
    let mut out = [7u32; 8];
    let out = &mut out[..n];
    let told = decompose(shares, &tape, 44, out);
    Parts::of(told, out)
}

// The shares come from the words after x.
fn judged(residue: u32, n: usize, tape: &[u32], p: Pair, x: u32) -> Judged
    requires { n ≤ 8 }
{
    let mut shares = [0u32; 8];
    let shares = &mut shares[..n];
    share(residue, shares, x);
    verdict(shares, tape, p.first, p.second)
}

// The verdict of set 44 and kind 1, where every draw is 0.
pub fn on_zeros(residue: u32, n: usize) -> Judged
    requires { n ≤ 8 }
{
    let x = mix(mix(u32::from(Gadget::Verdict), low(n)), residue);
    judged(residue, n, &[0; 4096], Pair::of(44, 1), x)
}

// The verdict, where the draws are pseudo-random; none where the call is refused.
pub fn on_words(residue: u32, n: usize, p: Pair) -> Option<u32>
    requires { n ≤ 8 }
{
    let mut tape = [0u32; 4096];
    let x = fill(&mut tape, mix(mix(p.first, p.second), mix(low(n), residue)));
    let told = judged(residue, n, &tape, p, x);
    (told.number == 0).then_some(told.verdict)
}

// The sizes on both sides of the bound, at the reach, and in the middle between.
pub fn sizes(p: Pair) -> [u32; 4]
    ensures { EachIndex result (λ i. slice_index result i < 600000) }
{
    let a = accepted_below(p);
    let b = reach(p);
    [a - 1, a, b, (a + b) / 2]
}
