// The opening of shares mod m: their sum. A refresh comes before it, so that the shares that are opened tell no more than the sum.
#![tactic(auto)]

ghost use Rattle.std.specs.Prelude.{◌≡◌, take};
ghost use Rattle.shares.specs.Sharing.{arithmetic, value};
ghost use Rattle.shares.specs.Arrays.{Held};

use params::Params;
use words::add_mod;

pub fn opened(shares: [u32; Params::MOST], n: usize, m: u32) -> u32
    requires { Held 8 n m shares }
    ensures { result ≡ value (arithmetic m) (take n shares) }
{
    let mut sum = 0u32;
    for share in &shares[..n] {
        sum = add_mod(sum, *share, m);
    }
    sum
}
