// The public widening, by a parameter set and a kind.
#![tactic(auto)]

ghost use Rattle.std.specs.Prelude.{◌≡◌, length};
ghost use Rattle.numbers.specs.Modulo.{q};
ghost use Rattle.tape.specs.Tape.{start};
ghost use Rattle.draws.specs.Draws.{bind, run};
ghost use Rattle.shares.specs.Refresh.{refresh};
ghost use Rattle.shares.specs.Arrays.{shared};
ghost use Rattle.checks.specs.Checks.{Checked};
ghost use Rattle.gate.specs.Told.{stands_for};
ghost use Rattle.gate.specs.Gadget.{tells};
ghost use Rattle.sizes.specs.Widening.{widened, widen};
ghost use Rattle.demands.specs.Gadgets.{widen_gadget};

use checks::checked;
use copies::copy_in;
use gate::{Answer, finish};
use params::{Bounds, Params};
use shares::{Arithmetic, Shared, close};
use tape::Cursor;
use widening::wide;

// The steps and the closing refresh.
fn widened(shares: &[u32], tape: &[u32], bounds: Bounds) -> Option<Shared>
    requires { Checked shares.now (length shares.now) q }
    ensures { shared (length shares.now) result ≡ run (bind (widen bounds shares.now) (refresh (widened bounds))) tape.now start }
{
    let n = shares.len();
    let wider = widening::widen(copy_in(shares), n, bounds, Cursor::start(), tape);
    close(wider, n, Arithmetic { m: wide(bounds) }, tape)
}

pub fn widen(shares: &[u32], tape: &[u32], set: u32, kind: u32, out: &mut [u32]) -> Answer
    ensures { stands_for result out.new ≡ tells (widen_gadget set kind) shares.now tape.now out.old }
{
    match checked(shares, out.len(), Params::bounds(set, kind), Params::Q) {
        Ok(bounds) => finish(widened(shares, tape, bounds), out),
        Err(refusal) => Answer::from(refusal),
    }
}
