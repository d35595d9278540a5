// The shift by t, and arithmetic to Boolean.
#![tactic(auto)]

ghost use Rattle.std.specs.Prelude.{◌≡◌, ◌*◌, ◌/◌, ◌^◌, ◌≤◌, ◌<◌, length, is_some, IfSome};
ghost use Rattle.tape.specs.Tape.{start};
ghost use Rattle.draws.specs.Draws.{bind, run};
ghost use Rattle.shares.specs.Sharing.{arithmetic, boolean};
ghost use Rattle.shares.specs.Refresh.{refresh};
ghost use Rattle.shares.specs.Arrays.{shared};
ghost use Rattle.halves.specs.Shift.{shift};
ghost use Rattle.halves.specs.ToBoolean.{to_boolean};
ghost use Rattle.checks.specs.Checks.{Checked};
ghost use Rattle.gate.specs.Told.{stands_for};
ghost use Rattle.gate.specs.Gadget.{tells};
ghost use Rattle.demands.specs.Gadgets.{shift_range, shift_gadget, to_boolean_gadget};

use checks::{checked, inside, width_bound};
use copies::copy_in;
use gate::{Answer, finish};
use shares::{Arithmetic, Boolean, Shared, close};
use shift::shift_by;
use tape::Cursor;
use words::power;

// The modulus without its t factors of 2, where t is in its range. The divisor, and that of the remainder, is a power of two, so both compile to a
// shift and a mask.
fn quotient(modulus: u32, t: u32) -> Option<u32>
    ensures found { is_some result ≡ shift_range modulus t }
    ensures same { IfSome result (λ m. m ≡ modulus / 2 ^ t) }
{
    let t = inside(1, 31, t)?;
    if modulus % power(t) != 0 {
        return None;
    }
    inside(2, u32::MAX, modulus / power(t))
}

// The steps and the closing refresh.
fn shifted(shares: &[u32], tape: &[u32], m: u32, t: u32) -> Option<Shared>
    requires { (t ≤ 31) × (2 ≤ m) × (2 ^ t * m < 2 ^ 32) × Checked shares.now (length shares.now) (2 ^ t * m) }
    ensures { shared (length shares.now) result ≡ run (bind (shift m t shares.now) (refresh (arithmetic m))) tape.now start }
{
    let n = shares.len();
    let halved = shift_by(copy_in(shares), n, m, t, Cursor::start(), tape);
    close(halved, n, Arithmetic { m }, tape)
}

pub fn shift(shares: &[u32], tape: &[u32], modulus: u32, t: u32, out: &mut [u32]) -> Answer
    ensures { stands_for result out.new ≡ tells (shift_gadget modulus t) shares.now tape.now out.old }
{
    match checked(shares, out.len(), quotient(modulus, t), modulus) {
        Ok(m) => finish(shifted(shares, tape, m, t), out),
        Err(refusal) => Answer::from(refusal),
    }
}

// The steps and the closing refresh.
fn in_bits(shares: &[u32], tape: &[u32], k: u32) -> Option<Shared>
    requires { (1 ≤ k) × (k ≤ 31) × Checked shares.now (length shares.now) (2 ^ k) }
    ensures { shared (length shares.now) result ≡ run (bind (to_boolean k shares.now) (refresh (boolean k))) tape.now start }
{
    let n = shares.len();
    let bits = shift::to_boolean(copy_in(shares), n, k, Cursor::start(), tape);
    close(bits, n, Boolean { k }, tape)
}

pub fn to_boolean(shares: &[u32], tape: &[u32], k: u32, out: &mut [u32]) -> Answer
    ensures { stands_for result out.new ≡ tells (to_boolean_gadget k) shares.now tape.now out.old }
{
    match checked(shares, out.len(), inside(1, 31, k), width_bound(k)) {
        Ok(k) => finish(in_bits(shares, tape, k), out),
        Err(refusal) => Answer::from(refusal),
    }
}
