// Sampling of a mask in shares: one coefficient, up to the pass that closes it.
#![tactic(auto)]

ghost use Rattle.std.specs.Prelude.{◌^◌, ◌≤◌, replicate};
ghost use Rattle.numbers.specs.Modulo.{q};
ghost use Rattle.draws.specs.Draws.{bind, run};
ghost use Rattle.draws.specs.Plan.{draw_all};
ghost use Rattle.shares.specs.Arrays.{Gave};
ghost use Rattle.masks.specs.ToModulus.{to_modulus};
ghost use Rattle.masks.specs.Sampling.{mask_plan};

use params::Params;
use shares::{Row, Shared};
use switching::to_modulus;
use tape::Cursor;
use words::power;

// n words below 2^mu: the Boolean shares of a number that nobody holds. Where the tape ends the turns do, so no closure makes the array.
fn draw_shares(n: usize, mu: u32, cursor: Cursor, tape: &[u32]) -> Option<Shared>
    requires { (2 ≤ n) × (n ≤ 8) × (1 ≤ mu) × (mu ≤ 31) }
    ensures { Gave n (2 ^ mu) result (run (draw_all (replicate n (2 ^ mu))) tape.now cursor) }
{
    let m = power(mu);
    let mut words = [0u32; Params::MOST];
    let mut cur = cursor;
    for i in 0..n {
        let Some((r, next)) = cur.draw(tape, m) else {
            return None;
        };
        words[i] = r;
        cur = next;
    }
    Some(Row { words, cursor: cur })
}

// The same number in shares mod q. What is left of a coefficient, γ1 − 1 taken from the first share and the closing refresh, is one pass of the caller's,
// `lowering::close_less`, which reads these shares where the conversion left them.
pub fn drawn_mod_q(p: Params, n: usize, cursor: Cursor, tape: &[u32]) -> Option<Shared>
    requires { (2 ≤ n) × (n ≤ 8) }
    ensures { Gave n q result (run (bind (draw_all (mask_plan p n)) (to_modulus q p.mu)) tape.now cursor) }
{
    let drawn = draw_shares(n, p.mu, cursor, tape)?;
    to_modulus(drawn.words, n, p.mu, Params::Q, drawn.cursor, tape)
}
