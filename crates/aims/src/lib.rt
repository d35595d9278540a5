// The values that some rounds aim at, since a step is likely to go wrong there. Bounds and reaches are written out, so that they do
// not hang on the constants that the gadgets go by.
#![tactic(auto)]

ghost use Rattle.std.specs.Prelude.{◌<◌};

use pairs::{Gadget, Pair, Round};
use trials::gamma2;

// The reach b of a set and a kind: up to it widening keeps the value. A number that is no set counts as 87, and one that is no kind as 2.
pub fn reach(p: Pair) -> u32
    ensures { result < 600000 }
{
    match (p.first, p.second) {
        (44, 1) => 131150,
        (65, 1) => 524484,
        (_, 1) => 524408,
        (set, _) => gamma2(set),
    }
}

// The bound a of a set and a kind: the verdict accepts what is smaller.
pub fn accepted_below(p: Pair) -> u32
    ensures { (0 < result) × (result < 600000) }
{
    match (p.first, p.second) {
        (44, 1) => 130994,
        (65, 1) => 524092,
        (_, 1) => 524168,
        (44, _) => 95154,
        (65, _) => 261692,
        _ => 261768,
    }
}

// The last residue before a high part changes: x chooses which.
fn end_of_high(set: u32, x: u32) -> u32
    ensures { result < 8380417 }
{
    match set {
        44 => x % 44 * 190464 + 95232,
        _ => x % 16 * 523776 + 261888,
    }
}

// The smallest values, and the largest; both sides of the ends of −size .. size; and both sides of the end of 0 .. last.
fn edges(size: u32, last: u32) -> [u32; 9]
    requires { (size < 600000) × (last < 8380417) }
{
    [
        0,
        1,
        8380416,
        size,
        size + 1,
        last,
        last + 1,
        8380417 - size,
        8380416 - size,
    ]
}

// The verdict's: both sides of the ends of what it accepts; and of widening's those at 0, at the reach and at the largest number.
fn verdict_edges(a: u32, b: u32) -> [u32; 11]
    requires { (0 < a) × (a < 600000) × (b < 600000) }
{
    [
        0,
        a - 1,
        a,
        b,
        b + 1,
        4190208,
        4190209,
        8380418 - a,
        8380417 - a,
        8380417 - b,
        8380416 - b,
    ]
}

// The value that a round aims at, where the shares are up to `largest`. Of widening the last is (q − 1)/2, the largest number.
pub fn value(round: Round, p: Pair, largest: u32) -> u32 {
    let i = (round.r / 3) as usize;
    match round.gadget {
        Gadget::Widen => edges(reach(p), 4190208)[i % 9],
        Gadget::Decompose => edges(gamma2(p.first), end_of_high(p.first, round.x))[i % 9],
        Gadget::Verdict => verdict_edges(accepted_below(p), reach(p))[i % 11],
        _ => [0, 1, largest][i % 3],
    }
}
