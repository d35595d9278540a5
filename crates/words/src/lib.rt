// Words below a modulus: sum, difference, negation, the remainder by q and by any modulus, the product mod q, and numbers of bits.
// Nothing here divides by a variable: some processors take longer for some operands.
#![tactic(auto)]

ghost use Rattle.std.specs.Prelude.{◌≡◌, ◌*◌, ◌%◌, ◌^◌, ◌≤◌, ◌<◌};
ghost use Rattle.numbers.specs.Modulo.{q, add_mod, sub_mod, neg_mod};
ghost use Rattle.numbers.specs.Bits.{bits_of, alpha};

use params::Params;

// `m - b` is formed first, so that the sum of two words fits for every modulus of 32 bits.
pub fn add_mod(a: u32, b: u32, m: u32) -> u32
    requires { (a < m) × (b < m) }
    ensures { result ≡ add_mod m a b }
{
    let left = m - b;
    if a < left { a + b } else { a - left }
}

pub fn sub_mod(a: u32, b: u32, m: u32) -> u32
    requires { (a < m) × (b < m) }
    ensures { result ≡ sub_mod m a b }
{
    if b <= a { a - b } else { a + (m - b) }
}

pub fn neg_mod(a: u32, m: u32) -> u32
    requires { a < m }
    ensures { result ≡ neg_mod m a }
{
    if a == 0 { 0 } else { m - a }
}

// The one reduction modulo q. The divisor is a constant, so it compiles to a multiplication.
pub fn reduce_q(x: u64) -> u32
    ensures { result ≡ x % q }
{
    (x % (Params::Q as u64)) as u32
}

// The product of two words modulo q.
pub fn mul_q(a: u32, b: u32) -> u32
    ensures { result ≡ a * b % q }
{
    reduce_q(a as u64 * b as u64)
}

// The remainder, a binary digit at a time from the top, for a modulus that is not a constant: slow, but with no divide.
fn reduce_by_digits(x: u64, m: u32) -> u32
    requires { 2 ≤ m }
    ensures { result ≡ x % m }
{
    let mut r = 0u32;
    for i in 0..64u32 {
        let digit = ((x >> (63 - i)) % 2) as u32;
        r = add_mod(add_mod(r, r, m), digit, m);
    }
    r
}

// The remainder by any modulus. One that matters for speed has a line of its own, where the divisor is a constant.
pub fn reduce(x: u64, m: u32) -> u32
    requires { 2 ≤ m }
    ensures { result ≡ x % m }
{
    if m == Params::Q {
        return reduce_q(x);
    }
    reduce_by_digits(x, m)
}

// L: how many bits a draw below m has.
pub fn bits(m: u32) -> u32
    requires { 2 ≤ m }
    ensures { result ≡ bits_of m }
{
    32 - u32::leading_zeros(m - 1)
}

// α of n shares.
pub fn alpha(n: usize) -> u32
    requires { (2 ≤ n) × (n ≤ 8) }
    ensures { result ≡ alpha n }
{
    bits(n as u32)
}

pub fn power(k: u32) -> u32
    requires { k ≤ 31 }
    ensures { result ≡ 2 ^ k }
{
    1u32 << k
}
