// The steps of modulus switching before the carries and after them: floors, in a map over all eight words, and 2^k times the carries taken off.
ghost use Rattle.std.specs.Prelude.{◌≡◌, ◌*◌, ◌/◌, ◌^◌, ◌≤◌, ◌<◌, take};
ghost use Rattle.numbers.specs.Modulo.{sub_mod};
ghost use Rattle.numbers.specs.Lists.{Words, along};
ghost use Rattle.halves.specs.Carries.{without};

use params::Params;
use words::{power, reduce};

// floor(x / 2^mu) of each word. Of a word below 2^(mu + alpha) it is below 2^alpha, so it needs no remainder.
pub fn quotients(shares: [u32; Params::MOST], mu: u32) -> [u32; Params::MOST]
    requires { mu ≤ 31 }
    ensures { result ≡ along (λ i x. x / 2 ^ mu) shares }
{
    shares.map(|x| x >> mu)
}

// x − 2^k·e mod m. 2^k·(m − e) is added instead, so that nothing falls below 0.
fn less(x: u32, e: u32, k: u32, m: u32) -> u32
    requires { (k ≤ 31) × (2 ≤ m) × (e < m) }
    ensures { result ≡ sub_mod m x (2 ^ k * e) }
{
    reduce(x as u64 + power(k) as u64 * (m - e) as u64, m)
}

// The same of each of the n shares, of two arrays at one place. The pass ends at n, so the compiler reads what the shift gave one by one, as the shift stored it.
pub fn without(
    shares: [u32; Params::MOST],
    e: [u32; Params::MOST],
    n: usize,
    k: u32,
    m: u32,
) -> [u32; Params::MOST]
    requires { (k ≤ 31) × (2 ≤ m) × (n ≤ 8) × Words 8 m e }
    ensures { Words 8 m result × (take n result ≡ without m (2 ^ k) (take n e) (take n shares)) }
{
    let mut words = [0u32; Params::MOST];
    for i in 0..Params::MOST {
        if i == n {
            return words;
        }
        words[i] = less(shares[i], e[i], k, m);
    }
    words
}
