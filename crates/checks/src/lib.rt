// The checks before a gadget runs, in their order, and why one refuses a call.
#![tactic(auto)]

ghost use Rattle.std.specs.Prelude.{◌≡◌, [], ◌*◌, ◌%◌, ◌^◌, ◌≤◌, is_some, IfSome};
ghost use Rattle.checks.specs.Checks.{inside, all_below, checks_of, checks};
ghost use Rattle.checks.specs.Admission.{refusal_number, Admits};

use params::Params;
use words::power;

// Why a call is refused, with the numbers that the caller is told.
#[derive(Clone, Copy, PartialEq, Eq)]
pub enum Refusal {
    ShareCount = 1,
    Room = 2,
    Parameters = 3,
    Share = 4,
    TapeEnded = 5,
}

impl From<Refusal> for u32 {
    ghost from_gives = { λ refusal number. number ≡ refusal_number refusal };

    fn from(refusal: Refusal) -> u32 {
        refusal as u32
    }
}

// The number, where it is from low to high.
#[tactic(auto, unfolding(crate::specs::Checks::inside))]
pub fn inside(low: u32, high: u32, x: u32) -> Option<u32>
    ensures found { is_some result ≡ inside low high x }
    ensures same { IfSome result (λ y. y ≡ x) }
{
    if (low..=high).contains(&x) {
        Some(x)
    } else {
        None
    }
}

// What shares of width k, or modulo 2^k, are below, for k up to 31; any other k is refused before a share is looked at.
pub fn width_bound(k: u32) -> u32
    ensures { result ≡ 2 ^ (k % 32) }
{
    power(k % 32)
}

fn all_below(shares: &[u32], m: u32) -> bool
    ensures { result ≡ all_below m shares.now }
{
    shares.iter().all(|x| *x < m)
}

// The checks 1 to 3: the share count, the room for so many coefficients, and that something was found in the parameters' range, which is then handed on.
// The product of coefficients and n is formed only once n is known to be small.
#[tactic(auto, unfolding(crate::specs::Checks::first_failing, crate::specs::Checks::checks_of, crate::specs::Checks::inside))]
pub fn counted<T: Copy>(
    n: usize,
    coefficients: usize,
    room: usize,
    found: Option<T>,
) -> Result<T, Refusal>
    requires { coefficients ≤ 256 }
    ensures { Admits (checks_of n room (coefficients * n) (is_some found) []) found result }
{
    if !(2..=Params::MOST).contains(&n) {
        return Err(Refusal::ShareCount);
    }
    if room != coefficients * n {
        return Err(Refusal::Room);
    }
    found.ok_or(Refusal::Parameters)
}

// The same of all checks on shares, of which none is looked at before the parameters are found to be in range.
#[tactic(auto, unfolding(crate::specs::Checks::first_failing, crate::specs::Checks::checks_of, crate::specs::Checks::checks))]
pub fn checked<T: Copy>(shares: &[u32], room: usize, found: Option<T>, m: u32) -> Result<T, Refusal>
    ensures { Admits (checks shares.now room (is_some found) m) found result }
{
    let t = counted(shares.len(), 1, room, found)?;
    if !all_below(shares, m) {
        return Err(Refusal::Share);
    }
    Ok(t)
}
