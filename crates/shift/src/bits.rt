// What is gathered along the halvings: bits of Boolean shares, from the parities of the arithmetic ones; or, for the shift, nothing.
ghost use Rattle.std.specs.Prelude.{◌≡◌, ◌^◌, ◌≤◌};
ghost use Rattle.numbers.specs.Lists.{Words};
ghost use Rattle.halves.specs.ToBoolean.{with_bit};
ghost use Rattle.halves.specs.Halvings.{gathered};

use params::Params;
use std::array;
use words::power;

// Bit b of each word, from the parities of the arithmetic shares.
pub fn with_bit(
    words: [u32; Params::MOST],
    shares: [u32; Params::MOST],
    b: u32,
) -> [u32; Params::MOST]
    requires { (b ≤ 30) × Words 8 (2 ^ b) words }
    ensures { result ≡ with_bit b shares words }
{
    let place = power(b);
    array::from_fn(|i| words[i] + place * (shares[i] % 2))
}

pub fn gathered(
    gathers: bool,
    words: [u32; Params::MOST],
    shares: [u32; Params::MOST],
    b: u32,
) -> [u32; Params::MOST]
    requires { (b ≤ 30) × Words 8 (2 ^ b) words }
    ensures { result ≡ gathered gathers b shares words }
{
    if gathers {
        return with_bit(words, shares, b);
    }
    words
}
