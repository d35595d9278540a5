// Boolean shares of width mu to arithmetic ones modulo any modulus that leaves room for alpha more bits.
ghost use Rattle.std.specs.Prelude.{◌+◌, ◌*◌, ◌^◌, ◌≤◌, ◌<◌, take};
ghost use Rattle.numbers.specs.Bits.{alpha};
ghost use Rattle.draws.specs.Draws.{run};
ghost use Rattle.shares.specs.Arrays.{Held, Gave};
ghost use Rattle.masks.specs.ToModulus.{to_modulus};

use super::steps::{quotients, without};
use carries::raised_shift;
use convert::to_arithmetic;
use params::Params;
use shares::{Row, Shared};
use tape::Cursor;
use words::alpha;

pub fn to_modulus(
    shares: [u32; Params::MOST],
    n: usize,
    mu: u32,
    modulus: u32,
    cursor: Cursor,
    tape: &[u32],
) -> Option<Shared>
    requires { (mu + alpha n ≤ 31) × (2 ≤ modulus) × (2 ^ alpha n * modulus < 2 ^ 32) × Held 8 n (2 ^ mu) shares }
    ensures { Gave n modulus result (run (to_modulus modulus mu (take n shares)) tape.now cursor) }
{
    let a = alpha(n);
    let k = mu + a;
    let converted = to_arithmetic(shares, n, k, cursor, tape)?;
    let x = converted.words;
    let carries = raised_shift(quotients(x, mu), n, modulus, a, converted.cursor, tape)?;
    Some(Row {
        words: without(x, carries.words, n, k, modulus),
        cursor: carries.cursor,
    })
}
