// The public samplers of a mask in shares. The share count n is stated, since there are no shares to count.
#![tactic(auto)]

ghost use Rattle.std.specs.Prelude.{◌≡◌, ◌*◌, ◌≤◌, length, replicate};
ghost use Rattle.tape.specs.Tape.{start};
ghost use Rattle.draws.specs.Draws.{run};
ghost use Rattle.shares.specs.Arrays.{shared};
ghost use Rattle.masks.specs.Sampling.{coefficient};
ghost use Rattle.masks.specs.Polynomial.{polynomial};
ghost use Rattle.gate.specs.Told.{silent_ran, ran_told, stands_for};
ghost use Rattle.gate.specs.Sampler.{samples};
ghost use Rattle.demands.specs.Gadgets.{sampler, polynomial_sampler};

use checks::{Refusal, counted};
use copies::clear;
use gate::{Answer, finish};
use lowering::close_less;
use params::Params;
use polynomial::polynomial;
use sample::drawn_mod_q;
use shares::Shared;
use tape::Cursor;

// The pass that closes also takes γ1 − 1 off: it reads the shares where the conversion left them.
fn sampled(p: Params, n: usize, tape: &[u32]) -> Option<Shared>
    requires { (2 ≤ n) × (n ≤ 8) }
    ensures { shared n result ≡ run (coefficient p n) tape.now start }
{
    let drawn = drawn_mod_q(p, n, Cursor::start(), tape);
    close_less(drawn, p.gamma1 - 1, n, Params::Q, tape)
}

pub fn sample(tape: &[u32], n: usize, set: u32, out: &mut [u32]) -> Answer
    ensures { stands_for result out.new ≡ samples (sampler set) n tape.now out.old }
{
    match counted(n, 1, out.len(), Params::of_set(set)) {
        Ok(p) => finish(sampled(p, n, tape), out),
        Err(refusal) => Answer::from(refusal),
    }
}

// The coefficients in the slice, and words used. Where the tape ends, those written so far are wiped with the rest of the slice.
fn fill(p: Params, n: usize, tape: &[u32], out: &mut [u32]) -> Answer
    requires { (2 ≤ n) × (n ≤ 8) × (length out.old ≡ 256 * n) }
    ensures { stands_for result out.new ≡ ran_told 0 (silent_ran (run (polynomial p n out.old) tape.now start)) (replicate (length out.old) 0) }
{
    let Some(cursor) = polynomial(p, n, tape, out) else {
        clear(out);
        return Answer::from(Refusal::TapeEnded);
    };
    Answer {
        number: 0,
        used: cursor.at,
    }
}

pub fn sample_polynomial(tape: &[u32], n: usize, set: u32, out: &mut [u32]) -> Answer
    ensures { stands_for result out.new ≡ samples (polynomial_sampler set) n tape.now out.old }
{
    match counted(n, Params::COEFFICIENTS, out.len(), Params::of_set(set)) {
        Ok(p) => fill(p, n, tape, out),
        Err(refusal) => Answer::from(refusal),
    }
}
