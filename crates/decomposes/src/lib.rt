// The public Decompose, by a parameter set.
#![tactic(auto)]

ghost use Rattle.std.specs.Prelude.{◌≡◌, length};
ghost use Rattle.numbers.specs.Modulo.{q};
ghost use Rattle.tape.specs.Tape.{start};
ghost use Rattle.draws.specs.Draws.{run};
ghost use Rattle.shares.specs.Sharing.{arithmetic};
ghost use Rattle.checks.specs.Checks.{Checked};
ghost use Rattle.gate.specs.Told.{ran_told, parts_stand_for};
ghost use Rattle.gate.specs.Gadget.{closed, tells};
ghost use Rattle.parts.specs.Decompose.{decompose};
ghost use Rattle.demands.specs.Gadgets.{decompose_gadget};

use checks::{Refusal, checked};
use copies::copy_in;
use decompose::{high_part, low_shares};
use gate::{Decomposed, finish};
use params::Params;
use shares::{Arithmetic, refresh};
use tape::Cursor;

// The high part is shown only where the tape suffices for the low shares too.
fn decompose_by(shares: &[u32], tape: &[u32], p: Params, out: &mut [u32]) -> Decomposed
    requires { Checked shares.now (length out.old) q }
    ensures { parts_stand_for result out.new ≡ ran_told 1 (run (closed (arithmetic q) (decompose p shares.now)) tape.now start) out.old }
{
    let n = shares.len();
    let words = copy_in(shares);
    let Some((high, next)) = high_part(words, n, p, Cursor::start(), tape) else {
        return Decomposed::from(Refusal::TapeEnded);
    };
    let kind = Arithmetic { m: Params::Q };
    let low = refresh(low_shares(words, p, high), n, kind, next, tape);
    let told = finish(low, out);
    if told.number != 0 {
        return Decomposed::from(Refusal::TapeEnded);
    }
    Decomposed {
        number: 0,
        high,
        used: told.used,
    }
}

pub fn decompose(shares: &[u32], tape: &[u32], set: u32, out: &mut [u32]) -> Decomposed
    ensures { parts_stand_for result out.new ≡ tells (decompose_gadget set) shares.now tape.now out.old }
{
    match checked(shares, out.len(), Params::of_set(set), Params::Q) {
        Ok(p) => decompose_by(shares, tape, p, out),
        Err(refusal) => Decomposed::from(refusal),
    }
}
