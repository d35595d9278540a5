// The two sides of widened shares, and their product.
#![tactic(auto)]

ghost use Rattle.std.specs.Prelude.{◌≡◌, take};
ghost use Rattle.numbers.specs.Modulo.{q};
ghost use Rattle.numbers.specs.Lists.{Words};
ghost use Rattle.draws.specs.Draws.{run};
ghost use Rattle.shares.specs.Sharing.{negated};
ghost use Rattle.shares.specs.Arrays.{Held, Gave};
ghost use Rattle.sizes.specs.Widening.{wide};
ghost use Rattle.sizes.specs.Sides.{side, sides_product};

use first::take_from_first;
use params::{Bounds, Params};
use product::product;
use shares::{Arithmetic, Shared, refresh};
use shift::shift_by;
use std::array;
use tape::Cursor;
use widening::wide;
use words::neg_mod;

fn negated(shares: [u32; Params::MOST], m: u32) -> [u32; Params::MOST]
    requires { Words 8 m shares }
    ensures { result ≡ negated m shares }
{
    array::from_fn(|i| neg_mod(shares[i], m))
}

fn side(
    shares: [u32; Params::MOST],
    n: usize,
    bounds: Bounds,
    cursor: Cursor,
    tape: &[u32],
) -> Option<Shared>
    requires { Held 8 n (wide bounds) shares }
    ensures { Gave n q result (run (side bounds (take n shares)) tape.now cursor) }
{
    let words = take_from_first(shares, bounds.a, wide(bounds));
    shift_by(words, n, Params::Q, bounds.rho, cursor, tape)
}

pub fn sides_product(
    shares: [u32; Params::MOST],
    n: usize,
    bounds: Bounds,
    cursor: Cursor,
    tape: &[u32],
) -> Option<Shared>
    requires { Held 8 n (wide bounds) shares }
    ensures { Gave n q result (run (sides_product bounds (take n shares)) tape.now cursor) }
{
    let left = side(shares, n, bounds, cursor, tape)?;
    let right = side(negated(shares, wide(bounds)), n, bounds, left.cursor, tape)?;
    let q = Arithmetic { m: Params::Q };
    let fresh = refresh(left.words, n, q, right.cursor, tape)?;
    product(fresh.words, right.words, n, fresh.cursor, tape)
}
