// Boolean to arithmetic: mod 2^k, and mod q.
#![tactic(auto)]

ghost use Rattle.std.specs.Prelude.{◌≡◌, ◌^◌, ◌≤◌, length};
ghost use Rattle.numbers.specs.Modulo.{q};
ghost use Rattle.tape.specs.Tape.{start};
ghost use Rattle.draws.specs.Draws.{bind, run};
ghost use Rattle.shares.specs.Sharing.{arithmetic};
ghost use Rattle.shares.specs.Refresh.{refresh};
ghost use Rattle.shares.specs.Arrays.{shared};
ghost use Rattle.rules.specs.ToArithmetic.{to_arithmetic};
ghost use Rattle.masks.specs.ToModulus.{to_modulus};
ghost use Rattle.checks.specs.Checks.{Checked};
ghost use Rattle.gate.specs.Told.{stands_for};
ghost use Rattle.gate.specs.Gadget.{tells};
ghost use Rattle.demands.specs.Gadgets.{to_arithmetic_gadget, to_mod_q_gadget};

use checks::{checked, inside, width_bound};
use copies::copy_in;
use gate::{Answer, finish};
use params::Params;
use shares::{Arithmetic, Shared, close};
use switching::to_modulus;
use tape::Cursor;
use words::power;

// The steps and the closing refresh.
fn converted(shares: &[u32], tape: &[u32], k: u32) -> Option<Shared>
    requires { (1 ≤ k) × (k ≤ 31) × Checked shares.now (length shares.now) (2 ^ k) }
    ensures { shared (length shares.now) result ≡ run (bind (to_arithmetic k shares.now) (refresh (arithmetic (2 ^ k)))) tape.now start }
{
    let n = shares.len();
    let sums = convert::to_arithmetic(copy_in(shares), n, k, Cursor::start(), tape);
    close(sums, n, Arithmetic { m: power(k) }, tape)
}

pub fn to_arithmetic(shares: &[u32], tape: &[u32], k: u32, out: &mut [u32]) -> Answer
    ensures { stands_for result out.new ≡ tells (to_arithmetic_gadget k) shares.now tape.now out.old }
{
    match checked(shares, out.len(), inside(1, 31, k), width_bound(k)) {
        Ok(k) => finish(converted(shares, tape, k), out),
        Err(refusal) => Answer::from(refusal),
    }
}

// The steps and the closing refresh.
fn switched(shares: &[u32], tape: &[u32], mu: u32) -> Option<Shared>
    requires { (1 ≤ mu) × (mu ≤ 20) × Checked shares.now (length shares.now) (2 ^ mu) }
    ensures { shared (length shares.now) result ≡ run (bind (to_modulus q mu shares.now) (refresh (arithmetic q))) tape.now start }
{
    let n = shares.len();
    let sums = to_modulus(copy_in(shares), n, mu, Params::Q, Cursor::start(), tape);
    close(sums, n, Arithmetic { m: Params::Q }, tape)
}

pub fn to_mod_q(shares: &[u32], tape: &[u32], mu: u32, out: &mut [u32]) -> Answer
    ensures { stands_for result out.new ≡ tells (to_mod_q_gadget mu) shares.now tape.now out.old }
{
    match checked(shares, out.len(), inside(1, 20, mu), width_bound(mu)) {
        Ok(mu) => finish(switched(shares, tape, mu), out),
        Err(refusal) => Answer::from(refusal),
    }
}
