// Decompose of shares modulo q: the high part is opened, the low part stays shared.
#![tactic(auto)]

ghost use Rattle.std.specs.Prelude.{◌≡◌, ◌<◌, take};
ghost use Rattle.numbers.specs.Modulo.{q};
ghost use Rattle.numbers.specs.Lists.{Words};
ghost use Rattle.draws.specs.Draws.{run};
ghost use Rattle.shares.specs.Arrays.{Held, Gave};
ghost use Rattle.parts.specs.Decompose.{high_shares, high_part, low_shares};
ghost use Rattle.decompose.specs.Answers.{high_stands_for};

use carries::carries_by_q;
use first::{add_to_first, take_from_first};
use opening::opened;
use params::Params;
use shares::{Arithmetic, Shared, close};
use tape::Cursor;
use words::{alpha, power};

// Shares of the high part modulo delta, refreshed, so that they may be opened. Gamma2 goes onto a copy: the low part is taken from the input.
fn high_shares(
    shares: [u32; Params::MOST],
    n: usize,
    p: Params,
    cursor: Cursor,
    tape: &[u32],
) -> Option<Shared>
    requires { Held 8 n q shares }
    ensures { Gave n p.delta result (run (high_shares p (take n shares)) tape.now cursor) }
{
    let x = add_to_first(shares, p.gamma2, Params::Q);
    let t = 23 + alpha(n);
    let carries = carries_by_q(x, n, p.delta, t, p.delta * power(t), cursor, tape);
    close(carries, n, Arithmetic { m: p.delta }, tape)
}

// The high part, and the place of the next word.
pub fn high_part(
    shares: [u32; Params::MOST],
    n: usize,
    p: Params,
    cursor: Cursor,
    tape: &[u32],
) -> Option<(u32, Cursor)>
    requires { Held 8 n q shares }
    ensures { high_stands_for result ≡ run (high_part p (take n shares)) tape.now cursor }
{
    let high = high_shares(shares, n, p, cursor, tape)?;
    Some((opened(high.words, n, p.delta), high.cursor))
}

pub fn low_shares(shares: [u32; Params::MOST], p: Params, high: u32) -> [u32; Params::MOST]
    requires { (high < p.delta) × Words 8 q shares }
    ensures { result ≡ low_shares p high shares }
{
    take_from_first(shares, 2 * p.gamma2 * high, Params::Q)
}
