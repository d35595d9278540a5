// Widening: shares of a small number modulo q become shares of the same number modulo 2^rho·q, which the verdict can shift.
#![tactic(auto)]

ghost use Rattle.std.specs.Prelude.{◌≡◌, ◌*◌, ◌≤◌, take};
ghost use Rattle.numbers.specs.Modulo.{q};
ghost use Rattle.numbers.specs.Lists.{Words};
ghost use Rattle.draws.specs.Draws.{run};
ghost use Rattle.shares.specs.Arrays.{Held, Gave};
ghost use Rattle.halves.specs.Carries.{without};
ghost use Rattle.sizes.specs.Widening.{wide, widen};

use carries::carries_by_q;
use first::{add_to_first, take_from_first};
use params::{Bounds, Params};
use shares::{Row, Shared};
use tape::Cursor;
use words::{alpha, power, sub_mod};

// The modulus 2^rho·q of the widened shares.
pub fn wide(bounds: Bounds) -> u32
    ensures { result ≡ wide bounds }
{
    power(bounds.rho) * Params::Q
}

// x − q·e mod m of each of the n shares x and its carry e, at one place of two arrays. With x below q and e below the factor 2^rho, both x and q·e are below m = 2^rho·q, so this
// needs no remainder. The pass ends at n, so the compiler reads the carries one by one: in fours they would have to wait for the shift's single stores.
fn without_carries(
    shares: [u32; Params::MOST],
    carries: [u32; Params::MOST],
    n: usize,
    factor: u32,
    m: u32,
) -> [u32; Params::MOST]
    requires { (m ≡ factor * q) × (1 ≤ factor) × (n ≤ 8) × Words 8 q shares × Words 8 factor carries }
    ensures { Words 8 m result × (take n result ≡ without m q (take n carries) (take n shares)) }
{
    let mut words = [0u32; Params::MOST];
    for i in 0..Params::MOST {
        if i == n {
            return words;
        }
        words[i] = sub_mod(shares[i], Params::Q * carries[i], m);
    }
    words
}

pub fn widen(
    shares: [u32; Params::MOST],
    n: usize,
    bounds: Bounds,
    cursor: Cursor,
    tape: &[u32],
) -> Option<Shared>
    requires { Held 8 n q shares }
    ensures { Gave n (wide bounds) result (run (widen bounds (take n shares)) tape.now cursor) }
{
    let x = add_to_first(shares, bounds.b, Params::Q);
    let t = alpha(n) + 1;
    let factor = power(bounds.rho);
    let carries = carries_by_q(x, n, factor, t, power(t), cursor, tape)?;
    let m = wide(bounds);
    Some(Row {
        words: take_from_first(without_carries(x, carries.words, n, factor, m), bounds.b, m),
        cursor: carries.cursor,
    })
}
