// The product of two sharings modulo q. Each pair of shares has a draw of its own, added to one and taken from the other.
#![tactic(auto)]

ghost use Rattle.std.specs.Prelude.{◌≡◌, ◌+◌, ◌*◌, ◌<◌, take};
ghost use Rattle.numbers.specs.Modulo.{q, sub_mod};
ghost use Rattle.numbers.specs.Lists.{Words};
ghost use Rattle.draws.specs.Draws.{run};
ghost use Rattle.shares.specs.Arrays.{Held, Gave};
ghost use Rattle.sizes.specs.Product.{begun, crossed, row, product};

use params::Params;
use shares::{Row, Shared};
use std::array;
use tape::Cursor;
use words::{add_mod, mul_q, reduce_q};

// l·r of each pair of words at one place.
fn begun(l: [u32; Params::MOST], r: [u32; Params::MOST]) -> [u32; Params::MOST]
    ensures { result ≡ begun q l r }
{
    array::from_fn(|i| mul_q(l[i], r[i]))
}

// a·b + c·d − v mod q. q − v is added instead, so that nothing falls below 0.
fn cross_less(a: u32, b: u32, c: u32, d: u32, v: u32) -> u32
    requires { (a < q) × (b < q) × (c < q) × (d < q) × (v < q) }
    ensures { result ≡ sub_mod q (a * b + c * d) v }
{
    reduce_q(a as u64 * b as u64 + c as u64 * d as u64 + (Params::Q - v) as u64)
}

fn crossed(
    shares: [u32; Params::MOST],
    l: [u32; Params::MOST],
    r: [u32; Params::MOST],
    i: usize,
    j: usize,
    v: u32,
) -> [u32; Params::MOST]
    requires { (i < j) × (j < 8) × (v < q) × Words 8 q shares × Words 8 q l × Words 8 q r }
    ensures { result ≡ crossed q l r i j v shares }
{
    let mut words = shares;
    words[i] = add_mod(words[i], v, Params::Q);
    words[j] = add_mod(words[j], cross_less(l[i], r[j], l[j], r[i], v), Params::Q);
    words
}

// The pairs of share i with every later one. A turn works on the places i and j at once, so places are counted.
fn row(
    shares: [u32; Params::MOST],
    l: [u32; Params::MOST],
    r: [u32; Params::MOST],
    i: usize,
    n: usize,
    cursor: Cursor,
    tape: &[u32],
) -> Option<Shared>
    requires { (i < n) × Held 8 n q shares × Words 8 q l × Words 8 q r }
    ensures { Gave n q result (run (row q (take n l) (take n r) i (take n shares)) tape.now cursor) }
{
    let mut words = shares;
    let mut cur = cursor;
    for j in i + 1..n {
        let Some((v, next)) = cur.draw(tape, Params::Q) else {
            return None;
        };
        let more = crossed(words, l, r, i, j, v);
        words = more;
        cur = next;
    }
    Some(Row { words, cursor: cur })
}

pub fn product(
    l: [u32; Params::MOST],
    r: [u32; Params::MOST],
    n: usize,
    cursor: Cursor,
    tape: &[u32],
) -> Option<Shared>
    requires { Held 8 n q l × Words 8 q r }
    ensures { Gave n q result (run (product q (take n l) (take n r)) tape.now cursor) }
{
    let mut given = Row {
        words: begun(l, r),
        cursor,
    };
    for i in 0..n {
        given = row(given.words, l, r, i, n, given.cursor, tape)?;
    }
    Some(given)
}
