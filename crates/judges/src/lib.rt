// The public verdict on the shares of one coefficient, by a parameter set and a kind: what is opened says, of a number within the reach, whether it is small enough.
#![tactic(auto)]

ghost use Rattle.std.specs.Prelude.{◌≡◌, [], length};
ghost use Rattle.numbers.specs.Modulo.{q};
ghost use Rattle.tape.specs.Tape.{start};
ghost use Rattle.draws.specs.Draws.{run};
ghost use Rattle.checks.specs.Checks.{Checked};
ghost use Rattle.gate.specs.Told.{ran_told, judged_stands_for};
ghost use Rattle.gate.specs.Judge.{judges};
ghost use Rattle.sizes.specs.Verdict.{verdict_of, verdict};
ghost use Rattle.demands.specs.Gadgets.{verdict_gadget};

use checks::{Refusal, checked};
use copies::copy_in;
use gate::Judged;
use opening::opened;
use params::{Bounds, Params};
use tape::Cursor;
use verdict::tested_shares;

#[tactic(auto, unfolding(sizes::specs::Verdict::verdict_of))]
fn verdict_of(opened: u32) -> u32
    ensures { result ≡ verdict_of opened }
{
    if opened == 0 { 0 } else { 1 }
}

fn verdict_by(shares: &[u32], tape: &[u32], bounds: Bounds) -> Judged
    requires { Checked shares.now (length shares.now) q }
    ensures { judged_stands_for result ≡ ran_told 2 (run (verdict bounds shares.now) tape.now start) [] }
{
    let n = shares.len();
    let Some(tested) = tested_shares(copy_in(shares), n, bounds, Cursor::start(), tape) else {
        return Judged::from(Refusal::TapeEnded);
    };
    let sum = opened(tested.words, n, Params::Q);
    Judged {
        number: 0,
        verdict: verdict_of(sum),
        opened: sum,
        used: tested.cursor.at,
    }
}

// There is no output slice. The check of its length is given the share count itself, and passes.
pub fn verdict(shares: &[u32], tape: &[u32], set: u32, kind: u32) -> Judged
    ensures { judged_stands_for result ≡ judges (verdict_gadget set kind) shares.now tape.now }
{
    match checked(shares, shares.len(), Params::bounds(set, kind), Params::Q) {
        Ok(bounds) => verdict_by(shares, tape, bounds),
        Err(refusal) => Judged::from(refusal),
    }
}
