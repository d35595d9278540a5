// FIPS 204's Decompose without shares. It does not divide: it counts, up to a bound and not a number of turns.
ghost use Rattle.std.specs.Prelude.{◌+◌, ◌<◌, ◌≤◌};

use trials::{Parts, gamma2, minus};

// With r0 the remainder by 2γ2 that lies in −γ2 < r0 ≤ γ2, `middle` is r − r0: the first multiple of 2γ2 that r is not more than γ2
// above. Where that is q − 1, the high part is 0, and one is taken from r0, which leaves r − q. No residue is refused.
pub fn decomposed(set: u32, r: u32) -> Parts
    requires { r < 8380417 }
{
    let half = gamma2(set);
    let mut high = 0;
    let mut middle = 0;
    while middle + half < r {
        middle += half + half;
        high += 1;
    }
    if middle == 8380416 {
        return Parts {
            number: 0,
            high: 0,
            low: r,
        };
    }
    Parts {
        number: 0,
        high,
        low: minus(r, middle, 8380417),
    }
}
