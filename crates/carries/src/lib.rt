// The carries of shares, which modulus switching, widening and Decompose make alike: floors, n - 1 added to the first, and a shift. The map goes over all
// eight words.
#![tactic(auto)]

ghost use Rattle.std.specs.Prelude.{◌≡◌, ◌*◌, ◌/◌, ◌^◌, ◌≤◌, ◌<◌, take};
ghost use Rattle.numbers.specs.Modulo.{q};
ghost use Rattle.numbers.specs.Lists.{Words, along};
ghost use Rattle.draws.specs.Draws.{run};
ghost use Rattle.shares.specs.Arrays.{Held, Gave};
ghost use Rattle.halves.specs.Carries.{raised_shift, carries};

use first::add_to_first;
use params::Params;
use shares::Shared;
use shift::shift_by;
use std::array;
use tape::Cursor;
use words::power;

// floor(x·c / q), which is below c. The divisor is a constant, so it compiles to a multiplication.
fn floor_by_q(x: u32, c: u32) -> u32
    requires { x < q }
    ensures { result ≡ x * c / q }
{
    (x as u64 * c as u64 / Params::Q as u64) as u32
}

fn floors_by_q(shares: [u32; Params::MOST], c: u32) -> [u32; Params::MOST]
    requires { Words 8 q shares }
    ensures { result ≡ along (λ i x. x * c / q) shares }
{
    array::from_fn(|i| floor_by_q(shares[i], c))
}

// n - 1 added to the first of the floors, and the shift by t, from 2^t·m to m.
pub fn raised_shift(
    floors: [u32; Params::MOST],
    n: usize,
    m: u32,
    t: u32,
    cursor: Cursor,
    tape: &[u32],
) -> Option<Shared>
    requires { (t ≤ 31) × (2 ≤ m) × (2 ^ t * m < 2 ^ 32) × (n ≤ 2 ^ t * m) × Held 8 n (2 ^ t * m) floors }
    ensures { Gave n m result (run (raised_shift m t (take n floors)) tape.now cursor) }
{
    let words = add_to_first(floors, (n - 1) as u32, power(t) * m);
    shift_by(words, n, m, t, cursor, tape)
}

// The carries of shares below q: floor(x·c / q) of each, n - 1 added to the first, shifted by t.
pub fn carries_by_q(
    shares: [u32; Params::MOST],
    n: usize,
    m: u32,
    t: u32,
    c: u32,
    cursor: Cursor,
    tape: &[u32],
) -> Option<Shared>
    requires { (t ≤ 31) × (2 ≤ m) × (2 ^ t * m < 2 ^ 32) × (n ≤ 2 ^ t * m) × (c ≤ 2 ^ t * m) × Held 8 n q shares }
    ensures { Gave n m result (run (carries m t c q (take n shares)) tape.now cursor) }
{
    raised_shift(floors_by_q(shares, c), n, m, t, cursor, tape)
}
