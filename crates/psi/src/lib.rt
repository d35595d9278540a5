// The lists that the rule of Boolean to arithmetic makes: U, Z by Ψ, and their results added. The maps go over all words of an array, which are all below 2^k.
#![tactic(auto)]

ghost use Rattle.std.specs.Prelude.{◌≡◌, ◌+◌, ◌-◌, ◌^◌, ◌<◌, ◌≤◌, take, drop, slice_index};
ghost use Rattle.numbers.specs.Modulo.{add_mod};
ghost use Rattle.numbers.specs.Lists.{Words};
ghost use Rattle.shares.specs.Arrays.{Copied};
ghost use Rattle.rules.specs.Psi.{psi, psis, z_of, added};

use params::Params;
use std::array;
use words::{add_mod, power};

// Ψ(x,u). The remainder is by a power of two, so it compiles to a mask.
pub fn psi(x: u32, u: u32, k: u32) -> u32
    requires { k ≤ 31 }
    ensures { result ≡ psi k x u }
{
    (x ^ u).wrapping_sub(u) % power(k)
}

// U: all shares but the first.
pub fn u_of(shares: [u32; 9]) -> [u32; 9]
    ensures { Copied 9 (drop 1 shares) result }
{
    array::from_fn(|i| shares.get(i + 1).copied().unwrap_or(0))
}

// Ψ of x and each word.
fn psis(x: u32, u: [u32; 9], k: u32) -> [u32; 9]
    requires { k ≤ 31 }
    ensures { result ≡ psis k x u }
{
    u.map(|y| psi(x, y, k))
}

// Z, of s shares that are x and then those of U.
#[tactic(auto, using(crate::proofs::ZLaws::z_of_odd, crate::proofs::ZLaws::z_of_even))]
pub fn z_of(x: u32, u: [u32; 9], s: usize, k: u32) -> [u32; 9]
    requires { k ≤ 31 }
    ensures { result ≡ z_of k s x u }
{
    let mut words = psis(x, u, k);
    if s % 2 == 1 {
        words[0] ^= x;
    }
    words
}

// The word at place i of the results added: a sum before their last place, then U's last one, then Z's.
fn added_at(i: usize, u: [u32; Params::MOST], z: [u32; Params::MOST], last: usize, k: u32) -> u32
    requires { (i < 8) × (k ≤ 31) × Words 8 (2 ^ k) u × Words 8 (2 ^ k) z }
    ensures { (i < last → result ≡ add_mod (2 ^ k) (slice_index u i) (slice_index z i)) × (i ≡ last → result ≡ slice_index u i) × (last < i → result ≡ slice_index z (i - 1)) }
{
    if i < last {
        return add_mod(u[i], z[i], power(k));
    }
    if i == last {
        return u[i];
    }
    z[i - 1]
}

// The results of U and Z, n shares each, added; the last ones are kept apart. What follows them in the arrays comes along.
// Taken into its caller, which the compiler would not do of itself, since that calls itself: its words would be stored one by one and then read in fours.
#[inline(always)]
pub fn added(
    u: [u32; Params::MOST],
    z: [u32; Params::MOST],
    n: usize,
    k: u32,
) -> [u32; Params::MOST]
    requires { (1 ≤ n) × (n ≤ 7) × (k ≤ 31) × Words 8 (2 ^ k) u × Words 8 (2 ^ k) z }
    ensures { Words 8 (2 ^ k) result × (take (n + 1) result ≡ added (2 ^ k) (take n u) (take n z)) }
{
    let mut words = u;
    for (i, word) in words.iter_mut().enumerate() {
        *word = added_at(i, u, z, n - 1, k);
    }
    words
}
