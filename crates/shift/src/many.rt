// Halvings of shares in an array.
ghost use Rattle.std.specs.Prelude.{◌*◌, ◌^◌, ◌≤◌, ◌<◌, take};
ghost use Rattle.draws.specs.Draws.{run};
ghost use Rattle.shares.specs.Arrays.{Held, Gave};
ghost use Rattle.halves.specs.Halvings.{halvings, halvings_bound};

use super::bits::{gathered, with_bit};
use halving::halve;
use params::Params;
use shares::{Row, Shared};
use tape::Cursor;
use words::power;

pub fn of_many(
    shares: [u32; Params::MOST],
    n: usize,
    m: u32,
    t: u32,
    gathers: bool,
    cursor: Cursor,
    tape: &[u32],
) -> Option<Shared>
    requires { (2 ≤ m) × (2 ^ t * m < 2 ^ 32) × Held 8 n (2 ^ t * m) shares }
    ensures { Gave n (halvings_bound gathers m t) result (run (halvings gathers m t (take n shares)) tape.now cursor) }
{
    let mut given = Row {
        words: shares,
        cursor,
    };
    let mut bits = [0u32; Params::MOST];
    let mut modulus = power(t) * m;
    for b in 0..t {
        let more = gathered(gathers, bits, given.words, b);
        modulus = modulus / 2;
        given = halve(given.words, n, modulus, given.cursor, tape)?;
        bits = more;
    }
    if gathers {
        let all = with_bit(bits, given.words, t);
        given.words = all;
    }
    Some(given)
}
