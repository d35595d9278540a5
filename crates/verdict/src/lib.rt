// The verdict: whether the number in the shares is small enough. Both sides of it are multiplied in shares, and only the product, multiplied by random
// scalars, is opened.
#![tactic(auto)]

ghost use Rattle.std.specs.Prelude.{take};
ghost use Rattle.numbers.specs.Modulo.{q};
ghost use Rattle.draws.specs.Draws.{run};
ghost use Rattle.shares.specs.Arrays.{Held, Gave};
ghost use Rattle.sizes.specs.Verdict.{tested};

use params::{Bounds, Params};
use shares::Shared;
use sides::sides_product;
use tape::Cursor;
use widening::widen;
use zero::zero_test;

// The shares that may be opened: within the reach, their sum is zero just where the number is to be rejected. The promise is on the shares, since the
// sum, which is all that a caller sees, would be the same without the refreshes.
pub fn tested_shares(
    shares: [u32; Params::MOST],
    n: usize,
    bounds: Bounds,
    cursor: Cursor,
    tape: &[u32],
) -> Option<Shared>
    requires { Held 8 n q shares }
    ensures { Gave n q result (run (tested bounds (take n shares)) tape.now cursor) }
{
    let widened = widen(shares, n, bounds, cursor, tape)?;
    let product = sides_product(widened.words, n, bounds, widened.cursor, tape)?;
    zero_test(product.words, n, product.cursor, tape)
}
