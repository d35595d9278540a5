// The rule of document 01, and the conversion, which applies it to the shares with a zero share after them.
ghost use Rattle.std.specs.Prelude.{◌-◌, ◌^◌, ◌≤◌, take};
ghost use Rattle.draws.specs.Draws.{run};
ghost use Rattle.shares.specs.Arrays.{Held, Copied, Gave};
ghost use Rattle.rules.specs.Rule.{rule};
ghost use Rattle.rules.specs.ToArithmetic.{to_arithmetic};

use few::{of_four, of_three};
use params::Params;
use psi::{added, u_of, z_of};
use shares::{Boolean, Row, Shared, refresh};
use std::array;
use tape::Cursor;

// With five shares or more the rule calls itself on U and then on Z, one share fewer each time. Only here are there nine words.
fn rule(shares: [u32; 9], s: usize, k: u32, cursor: Cursor, tape: &[u32]) -> Option<Shared>
    requires { (k ≤ 31) × (3 ≤ s) × Held 9 s (2 ^ k) shares }
    ensures { Gave (s - 1) (2 ^ k) result (run (rule k (s - 2) (take s shares)) tape.now cursor) }
{
    if s == 3 {
        return of_three(shares[0], shares[1], shares[2], k, cursor, tape);
    }
    if s == 4 {
        return of_four(shares, k, cursor, tape);
    }
    let fresh = refresh(shares, s, Boolean { k }, cursor, tape)?;
    let u = u_of(fresh.words);
    let of_u = rule(u, s - 1, k, fresh.cursor, tape)?;
    let z = z_of(fresh.words[0], u, s, k);
    let of_z = rule(z, s - 1, k, of_u.cursor, tape)?;
    Some(Row {
        words: added(of_u.words, of_z.words, s - 2, k),
        cursor: of_z.cursor,
    })
}

// Eight words, and a zero after them.
fn with_zero(words: [u32; Params::MOST]) -> [u32; 9]
    ensures { Copied 9 words result }
{
    array::from_fn(|i| words.get(i).copied().unwrap_or(0))
}

pub fn to_arithmetic(
    shares: [u32; Params::MOST],
    n: usize,
    k: u32,
    cursor: Cursor,
    tape: &[u32],
) -> Option<Shared>
    requires { (k ≤ 31) × Held 8 n (2 ^ k) shares }
    ensures { Gave n (2 ^ k) result (run (to_arithmetic k (take n shares)) tape.now cursor) }
{
    let mut words = with_zero(shares);
    words[n] = 0;
    rule(words, n + 1, k, cursor, tape)
}
