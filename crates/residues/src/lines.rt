// The residues of a line.
ghost use Rattle.std.specs.Prelude.{◌<◌, ◌≤◌};

use super::line::Line;
use trials::{gamma2, mix, step};

// All residues, in two shares. Set 44 skips three words in ten, so 25 draws below δ times a power of two use some 36 words.
fn all(set: u32) -> Line {
    let mut line = Line::start(set, 2);
    let mut tape = [0u32; 96];
    for r in 0..8380417 {
        line.hold(r, &mut tape);
    }
    line
}

// How many: nine around each of the 2δ multiples of γ2 below q − 1.
fn count_around(set: u32) -> u32
    ensures { result ≤ 792 }
{
    match set {
        44 => 792,
        _ => 288,
    }
}

// The parts change at the odd multiples, and the sign of the low part at the even ones.
fn neighbour(set: u32, i: u32) -> u32
    requires { i < 792 }
    ensures { result < 8380417 }
{
    (8380413 + i / 9 * gamma2(set) + i % 9) % 8380417
}

fn around(line: &mut Line, tape: &mut [u32]) {
    for i in 0..count_around(line.set) {
        line.hold(neighbour(line.set, i), tape);
    }
}

fn anywhere(line: &mut Line, tape: &mut [u32]) {
    let mut x = mix(line.set, line.n as u32);
    for _ in 0..10000u32 {
        x = step(x);
        line.hold(x % 8380417, tape);
    }
}

// Eight shares use some 1900 words.
fn some(set: u32, n: usize) -> Line
    requires { n ≤ 8 }
{
    let mut line = Line::start(set, n);
    let mut tape = [0u32; 2560];
    around(&mut line, &mut tape);
    anywhere(&mut line, &mut tape);
    line
}

pub fn tried(set: u32, n: usize) -> Line
    requires { n ≤ 8 }
{
    if n == 2 {
        return all(set);
    }
    some(set, n)
}
