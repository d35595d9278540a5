// The library's face for C: include/xechanopu.h declares what is exported here.
#![tactic(auto)]

ghost use Rattle.std.specs.Prelude.{◌≡◌};
ghost use Rattle.gate.specs.Told.{stands_for, parts_stand_for, judged_stands_for};
ghost use Rattle.gate.specs.Gadget.{tells};
ghost use Rattle.gate.specs.Sampler.{samples};
ghost use Rattle.gate.specs.Judge.{judges};
ghost use Rattle.demands.specs.Gadgets.{refresh_gadget, boolean_gadget, shift_gadget, to_boolean_gadget, to_arithmetic_gadget, to_mod_q_gadget, sampler, polynomial_sampler, widen_gadget, decompose_gadget, verdict_gadget};

use gadgets::{Answer, Decomposed, Judged};

#[unsafe(no_mangle)]
pub extern "C" fn xe_refresh(shares: &[u32], tape: &[u32], modulus: u32, out: &mut [u32]) -> Answer
    ensures { stands_for result out.new ≡ tells (refresh_gadget modulus) shares.now tape.now out.old }
{
    gadgets::refresh(shares, tape, modulus, out)
}

#[unsafe(no_mangle)]
pub extern "C" fn xe_refresh_boolean(
    shares: &[u32],
    tape: &[u32],
    width: u32,
    out: &mut [u32],
) -> Answer
    ensures { stands_for result out.new ≡ tells (boolean_gadget width) shares.now tape.now out.old }
{
    gadgets::refresh_boolean(shares, tape, width, out)
}

#[unsafe(no_mangle)]
pub extern "C" fn xe_shift(
    shares: &[u32],
    tape: &[u32],
    modulus: u32,
    t: u32,
    out: &mut [u32],
) -> Answer
    ensures { stands_for result out.new ≡ tells (shift_gadget modulus t) shares.now tape.now out.old }
{
    gadgets::shift(shares, tape, modulus, t, out)
}

#[unsafe(no_mangle)]
pub extern "C" fn xe_to_arithmetic(shares: &[u32], tape: &[u32], k: u32, out: &mut [u32]) -> Answer
    ensures { stands_for result out.new ≡ tells (to_arithmetic_gadget k) shares.now tape.now out.old }
{
    gadgets::to_arithmetic(shares, tape, k, out)
}

#[unsafe(no_mangle)]
pub extern "C" fn xe_to_boolean(shares: &[u32], tape: &[u32], k: u32, out: &mut [u32]) -> Answer
    ensures { stands_for result out.new ≡ tells (to_boolean_gadget k) shares.now tape.now out.old }
{
    gadgets::to_boolean(shares, tape, k, out)
}

#[unsafe(no_mangle)]
pub extern "C" fn xe_to_mod_q(shares: &[u32], tape: &[u32], mu: u32, out: &mut [u32]) -> Answer
    ensures { stands_for result out.new ≡ tells (to_mod_q_gadget mu) shares.now tape.now out.old }
{
    gadgets::to_mod_q(shares, tape, mu, out)
}

#[unsafe(no_mangle)]
pub extern "C" fn xe_sample(tape: &[u32], n: usize, set: u32, out: &mut [u32]) -> Answer
    ensures { stands_for result out.new ≡ samples (sampler set) n tape.now out.old }
{
    gadgets::sample(tape, n, set, out)
}

#[unsafe(no_mangle)]
pub extern "C" fn xe_sample_polynomial(tape: &[u32], n: usize, set: u32, out: &mut [u32]) -> Answer
    ensures { stands_for result out.new ≡ samples (polynomial_sampler set) n tape.now out.old }
{
    gadgets::sample_polynomial(tape, n, set, out)
}

#[unsafe(no_mangle)]
pub extern "C" fn xe_widen(
    shares: &[u32],
    tape: &[u32],
    set: u32,
    kind: u32,
    out: &mut [u32],
) -> Answer
    ensures { stands_for result out.new ≡ tells (widen_gadget set kind) shares.now tape.now out.old }
{
    gadgets::widen(shares, tape, set, kind, out)
}

#[unsafe(no_mangle)]
pub extern "C" fn xe_decompose(
    shares: &[u32],
    tape: &[u32],
    set: u32,
    out: &mut [u32],
) -> Decomposed
    ensures { parts_stand_for result out.new ≡ tells (decompose_gadget set) shares.now tape.now out.old }
{
    gadgets::decompose(shares, tape, set, out)
}

#[unsafe(no_mangle)]
pub extern "C" fn xe_verdict(shares: &[u32], tape: &[u32], set: u32, kind: u32) -> Judged
    ensures { judged_stands_for result ≡ judges (verdict_gadget set kind) shares.now tape.now }
{
    gadgets::verdict(shares, tape, set, kind)
}

// The cases by hand of document 01, on this device: 0, or the number of the first that came out wrong.
#[unsafe(no_mangle)]
pub extern "C" fn xe_self_test() -> u32
    ensures { result ≡ 0 }
{
    selftest::self_test()
}
