// The shift by t, from 2^t·m to m, and arithmetic shares mod 2^k to Boolean ones of width k, with a halving between bits. Both are one loop of
// halvings, which gathers bits or not: with a loop for each, `halve` has two callers, and the compiler makes a call of it, with the words copied around.
ghost use Rattle.std.specs.Prelude.{◌*◌, ◌^◌, ◌≤◌, ◌<◌, take};
ghost use Rattle.draws.specs.Draws.{run};
ghost use Rattle.shares.specs.Arrays.{Held, Gave};
ghost use Rattle.halves.specs.Shift.{shift};
ghost use Rattle.halves.specs.ToBoolean.{to_boolean};
ghost use Rattle.halves.specs.Halvings.{halvings, halvings_bound};

use super::many::of_many;
use params::Params;
use shares::Shared;
use tape::Cursor;
use two::of_two;

fn halvings(
    shares: [u32; Params::MOST],
    n: usize,
    m: u32,
    t: u32,
    gathers: bool,
    cursor: Cursor,
    tape: &[u32],
) -> Option<Shared>
    requires { (2 ≤ m) × (2 ^ t * m < 2 ^ 32) × Held 8 n (2 ^ t * m) shares }
    ensures { Gave n (halvings_bound gathers m t) result (run (halvings gathers m t (take n shares)) tape.now cursor) }
{
    if n == 2 {
        return of_two(shares[0], shares[1], m, t, gathers, cursor, tape);
    }
    of_many(shares, n, m, t, gathers, cursor, tape)
}

pub fn shift_by(
    shares: [u32; Params::MOST],
    n: usize,
    m: u32,
    t: u32,
    cursor: Cursor,
    tape: &[u32],
) -> Option<Shared>
    requires { (t ≤ 31) × (2 ≤ m) × (2 ^ t * m < 2 ^ 32) × Held 8 n (2 ^ t * m) shares }
    ensures { Gave n m result (run (shift m t (take n shares)) tape.now cursor) }
{
    halvings(shares, n, m, t, false, cursor, tape)
}

pub fn to_boolean(
    shares: [u32; Params::MOST],
    n: usize,
    k: u32,
    cursor: Cursor,
    tape: &[u32],
) -> Option<Shared>
    requires { (1 ≤ k) × (k ≤ 31) × Held 8 n (2 ^ k) shares }
    ensures { Gave n (2 ^ k) result (run (to_boolean k (take n shares)) tape.now cursor) }
{
    halvings(shares, n, 2, k - 1, true, cursor, tape)
}
