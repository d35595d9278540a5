// Shares of the parity of the sum of the shares.
ghost use Rattle.std.specs.Prelude.{◌≡◌, ◌≤◌, ◌<◌, take};
ghost use Rattle.numbers.specs.Lists.{Words};
ghost use Rattle.draws.specs.Draws.{run};
ghost use Rattle.shares.specs.Arrays.{Held, Gave};
ghost use Rattle.halves.specs.Halving.{join, shared_parity};
ghost use Rattle.halves.specs.AtOnce.{signed, joined};

use params::Params;
use shares::{Arithmetic, Row, Shared, refresh};
use tape::Cursor;
use words::{add_mod, neg_mod};

// A word with the sign that a parity asks for. The parity is a factor, not a test: it is as good as random, so half of all branches on it would be
// foreseen wrongly.
fn signed(p: u32, x: u32, modulus: u32) -> u32
    requires { (x < modulus) × (p < 2) }
    ensures { result ≡ signed modulus p x }
{
    p * neg_mod(x, modulus) + (1 - p) * x
}

// The word at place i once a parity has joined.
pub fn joined(i: usize, p: u32, x: u32, modulus: u32) -> u32
    requires { (x < modulus) × (2 ≤ modulus) × (p < 2) }
    ensures { result ≡ joined modulus p i x }
{
    let y = signed(p, x, modulus);
    if i == 0 { add_mod(y, p, modulus) } else { y }
}

// The pass ends at n, so nothing is done for the places after the last share.
fn join(words: [u32; Params::MOST], n: usize, p: u32, modulus: u32) -> [u32; Params::MOST]
    requires { Words 8 modulus words × (n ≤ 8) × (2 ≤ modulus) × (p < 2) }
    ensures { Words 8 modulus result × (take n result ≡ join modulus p (take n words)) }
{
    let mut out = [0u32; Params::MOST];
    for (i, word) in words.iter().enumerate() {
        if i == n {
            return out;
        }
        out[i] = joined(i, p, *word, modulus);
    }
    out
}

pub fn shared_parity(
    shares: [u32; Params::MOST],
    n: usize,
    modulus: u32,
    cursor: Cursor,
    tape: &[u32],
) -> Option<Shared>
    requires { Held 8 n modulus shares }
    ensures { Gave n modulus result (run (shared_parity modulus (take n shares)) tape.now cursor) }
{
    let kind = Arithmetic { m: modulus };
    let mut given = Row {
        words: [shares[0] % 2, 0, 0, 0, 0, 0, 0, 0],
        cursor,
    };
    for share in &shares[1..n] {
        let fresh = refresh(given.words, n, kind, given.cursor, tape)?;
        given = Row {
            words: join(fresh.words, n, *share % 2, modulus),
            cursor: fresh.cursor,
        };
    }
    Some(given)
}
