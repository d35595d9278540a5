// A number added to the first share of an array, or taken from it.
#![tactic(auto)]

ghost use Rattle.std.specs.Prelude.{◌≡◌, ◌<◌};
ghost use Rattle.numbers.specs.Lists.{Words};
ghost use Rattle.shares.specs.Sharing.{arithmetic};
ghost use Rattle.first.specs.First.{add_to_first, take_from_first};

use params::Params;
use words::{add_mod, sub_mod};

pub fn add_to_first(shares: [u32; Params::MOST], r: u32, m: u32) -> [u32; Params::MOST]
    requires { (r < m) × Words 8 m shares }
    ensures { result ≡ add_to_first (arithmetic m) r shares }
{
    let mut words = shares;
    words[0] = add_mod(words[0], r, m);
    words
}

pub fn take_from_first(shares: [u32; Params::MOST], r: u32, m: u32) -> [u32; Params::MOST]
    requires { (r < m) × Words 8 m shares }
    ensures { result ≡ take_from_first (arithmetic m) r shares }
{
    let mut words = shares;
    words[0] = sub_mod(words[0], r, m);
    words
}
