// One case of the self test: a call of a public gadget, and whether it told what is wanted; of Boolean to arithmetic its steps, and what they gave.
#![tactic(auto)]

ghost use Rattle.std.specs.Prelude.{◌≡◌, [], ◌∷◌, ◌^◌, ◌≤◌, take};
ghost use Rattle.numbers.specs.Modulo.{q, add_mod};
ghost use Rattle.tape.specs.Tape.{start};
ghost use Rattle.draws.specs.Draws.{bind, run};
ghost use Rattle.shares.specs.Sharing.{arithmetic};
ghost use Rattle.shares.specs.Refresh.{refresh};
ghost use Rattle.shares.specs.Arrays.{Held, shared};
ghost use Rattle.rules.specs.ToArithmetic.{to_arithmetic};
ghost use Rattle.gate.specs.Told.{stands_for};
ghost use Rattle.gate.specs.Gadget.{tells};
ghost use Rattle.gate.specs.Judge.{judges};
ghost use Rattle.gate.specs.Sampler.{samples};
ghost use Rattle.demands.specs.Gadgets.{refresh_gadget, shift_gadget, to_boolean_gadget, sampler, decompose_gadget, verdict_gadget};
ghost use Rattle.passing.specs.Held.{sevens, held, shares_shown, steps_held, parts_shown, verdict_shown};

use convert::to_arithmetic;
use decomposes::decompose;
use gate::Answer;
use judges::verdict;
use params::Params;
use refreshes::refresh;
use samplers::sample;
use shares::{Arithmetic, Shared, close};
use shifts::{shift, to_boolean};
use tape::Cursor;
use words::{power, reduce_q};

#[tactic(auto, unfolding(passing::specs::Held::held))]
fn held(wanted: [u32; 4], number: u32, used: usize, third: u32, fourth: u32) -> bool
    ensures { result ≡ held wanted (number ∷ used ∷ third ∷ fourth ∷ []) }
{
    (number, used, third, fourth) == (wanted[0], wanted[1] as usize, wanted[2], wanted[3])
}

// What a call that fills two shares told: the number, the words used, and both words of the output.
#[tactic(auto, unfolding(gate::specs::Told::stands_for, passing::specs::Held::shares_shown))]
fn shares_held(wanted: [u32; 4], told: Answer, out: [u32; 2]) -> bool
    ensures { result ≡ held wanted (shares_shown (stands_for told out)) }
{
    held(wanted, told.number, told.used, out[0], out[1])
}

// 0, the number that a shift answers. The compiler cannot know it. A case so small that it would be worked out when the library is built is made to
// depend on it, so that something is left for the device to run.
#[tactic(auto, using(passing::proofs::CaseLaws::passing, checks::proofs::CheckLaws::both_left), unfolding(gate::specs::Told::stands_for, passing::specs::Held::shares_shown, passing::specs::Held::held))]
fn unknown_zero() -> u32
    ensures { result ≡ 0 }
{
    let mut out = [7u32; 2];
    let told = shift(&[7, 8], &[3, 4], 10, 1, &mut out);
    told.number
}

pub fn refresh_gives(shares: &[u32], tape: &[u32], modulus: u32, wanted: [u32; 4]) -> bool
    ensures { result ≡ held wanted (shares_shown (tells (refresh_gadget modulus) shares.now tape.now sevens)) }
{
    let mut out = [7u32; 2];
    let n = shares.len() + unknown_zero() as usize - unknown_zero() as usize;
    let told = refresh(&shares[..n], tape, modulus, &mut out);
    shares_held(wanted, told, out)
}

pub fn shift_gives(shares: &[u32], tape: &[u32], modulus: u32, t: u32, wanted: [u32; 4]) -> bool
    ensures { result ≡ held wanted (shares_shown (tells (shift_gadget modulus t) shares.now tape.now sevens)) }
{
    let mut out = [7u32; 2];
    let told = shift(shares, tape, modulus, t, &mut out);
    shares_held(wanted, told, out)
}

// Boolean to arithmetic with its closing refresh, as the public gadget makes them of two shares that pass its checks. The gadget itself is not called:
// with a second caller the compiler would not take it into the exported function, which would be slower by a quarter.
#[tactic(auto, using(draws::proofs::RunLaws::bind_ran, draws::proofs::RunLaws::bind_ended, shares::proofs::ArraysLaws::gave_is))]
fn converted(shares: [u32; Params::MOST], tape: &[u32], k: u32) -> Option<Shared>
    requires { (k ≤ 31) × Held 8 2 (2 ^ k) shares }
    ensures { shared 2 result ≡ run (bind (to_arithmetic k (take 2 shares)) (refresh (arithmetic (2 ^ k)))) tape.now start }
{
    let sums = to_arithmetic(shares, 2, k, Cursor::start(), tape);
    close(sums, 2, Arithmetic { m: power(k) }, tape)
}

#[tactic(auto, unfolding(passing::specs::Held::steps_held))]
pub fn to_arithmetic_gives(
    shares: [u32; Params::MOST],
    tape: &[u32],
    k: u32,
    wanted: [u32; 4],
) -> bool
    requires { (k ≤ 31) × Held 8 2 (2 ^ k) shares }
    ensures { result ≡ steps_held wanted (run (bind (to_arithmetic k (take 2 shares)) (refresh (arithmetic (2 ^ k)))) tape.now start) }
{
    let Some(sums) = converted(shares, tape, k + unknown_zero()) else {
        return false;
    };
    held(wanted, 0, sums.cursor.at, sums.words[0], sums.words[1])
}

pub fn to_boolean_gives(shares: &[u32], tape: &[u32], k: u32, wanted: [u32; 4]) -> bool
    ensures { result ≡ held wanted (shares_shown (tells (to_boolean_gadget k) shares.now tape.now sevens)) }
{
    let mut out = [7u32; 2];
    let told = to_boolean(shares, tape, k, &mut out);
    shares_held(wanted, told, out)
}

pub fn sample_gives(tape: &[u32], set: u32, wanted: [u32; 4]) -> bool
    ensures { result ≡ held wanted (shares_shown (samples (sampler set) 2 tape.now sevens)) }
{
    let mut out = [7u32; 2];
    let told = sample(tape, 2, set, &mut out);
    shares_held(wanted, told, out)
}

#[tactic(auto, unfolding(numbers::specs::Modulo::add_mod))]
fn sum_q(x: u32, y: u32) -> u32
    ensures { result ≡ add_mod q x y }
{
    reduce_q(x as u64 + y as u64)
}

#[tactic(auto, unfolding(gate::specs::Told::parts_stand_for, passing::specs::Held::parts_shown))]
pub fn decompose_gives(shares: &[u32], tape: &[u32], set: u32, wanted: [u32; 4]) -> bool
    ensures { result ≡ held wanted (parts_shown (tells (decompose_gadget set) shares.now tape.now sevens)) }
{
    let mut out = [7u32; 2];
    let told = decompose(shares, tape, set, &mut out);
    let low = sum_q(out[0], out[1]);
    held(wanted, told.number, told.used, told.high, low)
}

#[tactic(auto, unfolding(gate::specs::Told::judged_stands_for, passing::specs::Held::verdict_shown))]
pub fn verdict_gives(shares: &[u32], tape: &[u32], set: u32, kind: u32, wanted: [u32; 4]) -> bool
    ensures { result ≡ held wanted (verdict_shown (judges (verdict_gadget set kind) shares.now tape.now)) }
{
    let told = verdict(shares, tape, set, kind);
    held(wanted, told.number, told.used, told.verdict, told.opened)
}
