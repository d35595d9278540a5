// Both refreshes: the closing refresh alone.
#![tactic(auto)]

ghost use Rattle.std.specs.Prelude.{◌≡◌};
ghost use Rattle.gate.specs.Told.{stands_for};
ghost use Rattle.gate.specs.Gadget.{tells};
ghost use Rattle.demands.specs.Gadgets.{refresh_gadget, boolean_gadget};

use checks::{checked, inside, width_bound};
use copies::copy_in;
use gate::{Answer, finish};
use shares::{Arithmetic, Boolean};
use tape::Cursor;

pub fn refresh(shares: &[u32], tape: &[u32], modulus: u32, out: &mut [u32]) -> Answer
    ensures { stands_for result out.new ≡ tells (refresh_gadget modulus) shares.now tape.now out.old }
{
    match checked(shares, out.len(), inside(2, u32::MAX, modulus), modulus) {
        Ok(m) => {
            let kind = Arithmetic { m };
            let fresh = shares::refresh(copy_in(shares), shares.len(), kind, Cursor::start(), tape);
            finish(fresh, out)
        }
        Err(refusal) => Answer::from(refusal),
    }
}

pub fn refresh_boolean(shares: &[u32], tape: &[u32], width: u32, out: &mut [u32]) -> Answer
    ensures { stands_for result out.new ≡ tells (boolean_gadget width) shares.now tape.now out.old }
{
    match checked(shares, out.len(), inside(1, 31, width), width_bound(width)) {
        Ok(k) => {
            let kind = Boolean { k };
            let fresh = shares::refresh(copy_in(shares), shares.len(), kind, Cursor::start(), tape);
            finish(fresh, out)
        }
        Err(refusal) => Answer::from(refusal),
    }
}
