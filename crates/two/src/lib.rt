// Halvings of two shares, without arrays: with so few, most of a halving's time would go into the words that follow them.
#![tactic(auto)]

ghost use Rattle.std.specs.Prelude.{◌≡◌, [], ◌∷◌, ◌*◌, ◌^◌, ◌≤◌, ◌<◌};
ghost use Rattle.draws.specs.Draws.{run};
ghost use Rattle.shares.specs.Arrays.{Held, Gave};
ghost use Rattle.halves.specs.Halving.{halving};
ghost use Rattle.halves.specs.Halvings.{halvings, halvings_bound, gathered_word};

use halving::joined;
use shares::{Row, Shared};
use tape::Cursor;
use words::{add_mod, power, sub_mod};

// One halving, in the steps of document 01: one draw, and each word once.
fn halve_two(x: u32, y: u32, m: u32, cursor: Cursor, tape: &[u32]) -> Option<Shared>
    requires { (x < 2 * m) × (y < 2 * m) × (m ≤ 2147483647) }
    ensures { Gave 2 m result (run (halving m (x ∷ y ∷ [])) tape.now cursor) }
{
    let double = 2 * m;
    let Some((r, next)) = cursor.draw(tape, double) else {
        return None;
    };
    let p = y % 2;
    let a = joined(0, p, add_mod(x % 2, r, double), double);
    let b = joined(1, p, sub_mod(0, r, double), double);
    let d = sub_mod(x, a, double);
    let e = sub_mod(y, b, double);
    Some(Row {
        words: [d / 2, add_mod(e, d % 2, double) / 2, 0, 0, 0, 0, 0, 0],
        cursor: next,
    })
}

// A bit of a Boolean share, from the parity of the arithmetic one; or, for the shift, nothing.
fn gathered_word(gathers: bool, word: u32, share: u32, b: u32) -> u32
    requires { (b ≤ 30) × (word < 2 ^ b) }
    ensures { result ≡ gathered_word gathers b share word }
{
    if gathers {
        return word + power(b) * (share % 2);
    }
    word
}

// The halvings of a shift, or those between the bits of a Boolean share.
pub fn of_two(
    x: u32,
    y: u32,
    m: u32,
    t: u32,
    gathers: bool,
    cursor: Cursor,
    tape: &[u32],
) -> Option<Shared>
    requires { (2 ≤ m) × (2 ^ t * m < 2 ^ 32) × Held 2 2 (2 ^ t * m) (x ∷ y ∷ []) }
    ensures { Gave 2 (halvings_bound gathers m t) result (run (halvings gathers m t (x ∷ y ∷ [])) tape.now cursor) }
{
    let mut first = x;
    let mut second = y;
    let mut u = 0u32;
    let mut v = 0u32;
    let mut modulus = power(t) * m;
    let mut cur = cursor;
    for b in 0..t {
        u = gathered_word(gathers, u, first, b);
        v = gathered_word(gathers, v, second, b);
        modulus = modulus / 2;
        let halved = halve_two(first, second, modulus, cur, tape)?;
        first = halved.words[0];
        second = halved.words[1];
        cur = halved.cursor;
    }
    if gathers {
        first = gathered_word(true, u, first, t);
        second = gathered_word(true, v, second, t);
    }
    Some(Row {
        words: [first, second, 0, 0, 0, 0, 0, 0],
        cursor: cur,
    })
}
