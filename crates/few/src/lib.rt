// The rule of Boolean to arithmetic on few shares, without arrays: of all calls of the rule half have three shares, where it ends, and half of the others four, right above these.
#![tactic(auto)]

ghost use Rattle.std.specs.Prelude.{[], ◌∷◌, ◌^◌, ◌≤◌, take};
ghost use Rattle.draws.specs.Draws.{run};
ghost use Rattle.shares.specs.Arrays.{Held, Gave};
ghost use Rattle.rules.specs.Rule.{rule};

use psi::psi;
use shares::{Row, Shared};
use tape::Cursor;
use words::{add_mod, power};

// Three shares, x, y and z once they are refreshed. U is (y, z), and Z has two shares too; two shares give one, their exclusive or.
pub fn of_three(a: u32, b: u32, c: u32, k: u32, cursor: Cursor, tape: &[u32]) -> Option<Shared>
    requires { (k ≤ 31) × Held 3 3 (2 ^ k) (a ∷ b ∷ c ∷ []) }
    ensures { Gave 2 (2 ^ k) result (run (rule k 1 (a ∷ b ∷ c ∷ [])) tape.now cursor) }
{
    let m = power(k);
    let Some((r, next)) = cursor.draw(tape, m) else {
        return None;
    };
    let Some((v, after)) = next.draw(tape, m) else {
        return None;
    };
    let x = a ^ r;
    let y = b ^ v;
    let z = c ^ r ^ v;
    Some(Row {
        words: [y ^ z, psi(x, y, k) ^ x ^ psi(x, z, k), 0, 0, 0, 0, 0, 0],
        cursor: after,
    })
}

// Four shares, x and then a, b and c once they are refreshed. U is (a, b, c); Z is Ψ of x and each of them, and no more, since four is even.
pub fn of_four(shares: [u32; 9], k: u32, cursor: Cursor, tape: &[u32]) -> Option<Shared>
    requires { (k ≤ 31) × Held 9 4 (2 ^ k) shares }
    ensures { Gave 3 (2 ^ k) result (run (rule k 2 (take 4 shares)) tape.now cursor) }
{
    let m = power(k);
    let Some((r, c1)) = cursor.draw(tape, m) else {
        return None;
    };
    let Some((v, c2)) = c1.draw(tape, m) else {
        return None;
    };
    let Some((w, c3)) = c2.draw(tape, m) else {
        return None;
    };
    let x = shares[0] ^ r;
    let a = shares[1] ^ v;
    let b = shares[2] ^ w;
    let c = shares[3] ^ r ^ v ^ w;
    let of_u = of_three(a, b, c, k, c3, tape)?;
    let of_z = of_three(
        psi(x, a, k),
        psi(x, b, k),
        psi(x, c, k),
        k,
        of_u.cursor,
        tape,
    )?;
    let sum = add_mod(of_u.words[0], of_z.words[0], m);
    Some(Row {
        words: [sum, of_u.words[1], of_z.words[1], 0, 0, 0, 0, 0],
        cursor: of_z.cursor,
    })
}
