// Copies between a caller's slices and arrays of shares, and a slice cleared.
#![tactic(auto)]

ghost use Rattle.std.specs.Prelude.{◌≡◌, ◌≤◌, length, get_or, set, take, replicate};
ghost use Rattle.shares.specs.Arrays.{Copied};

use params::Params;
use std::array;

// The word at place i, or 0 after the last.
fn word_at(shares: &[u32], i: usize) -> u32
    ensures { result ≡ get_or shares.now i 0 }
{
    shares.get(i).copied().unwrap_or(0)
}

// Both copies go through all eight places, so that the compiler keeps the words in registers: a copy of n words is a call, and an array that is
// filled word by word in memory makes the next reading of it wait.
pub fn copy_in(shares: &[u32]) -> [u32; Params::MOST]
    requires { length shares.now ≤ 8 }
    ensures { Copied 8 shares.now result }
{
    array::from_fn(|i| word_at(shares, i))
}

// A word into place i, if there is one.
fn put(x: u32, i: usize, out: &mut [u32])
    ensures { out.new ≡ set out.old i x }
{
    if i < out.len() {
        out[i] = x;
    }
}

pub fn copy_out(words: [u32; Params::MOST], out: &mut [u32])
    requires { length out.old ≤ 8 }
    ensures { out.new ≡ take (length out.old) words }
{
    for (i, x) in words.iter().enumerate() {
        put(*x, i, out);
    }
}

pub fn clear(out: &mut [u32])
    ensures { out.new ≡ replicate (length out.old) 0 }
{
    out.fill(0);
}
