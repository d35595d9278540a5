// The refresh that closes shares from whose first a number is taken.
#![tactic(auto)]

ghost use Rattle.std.specs.Prelude.{◌≡◌, ◌<◌, take, None, IfSome, MatchOption};
ghost use Rattle.draws.specs.Draws.{run};
ghost use Rattle.shares.specs.Sharing.{arithmetic};
ghost use Rattle.shares.specs.Refresh.{refresh};
ghost use Rattle.shares.specs.Arrays.{Held, Gave};
ghost use Rattle.first.specs.First.{take_from_first};

use params::Params;
use shares::{Row, Shared};
use words::{add_mod, sub_mod};

// In one pass, as in the refresh of `shares`: the shares are read where the steps before left them, and no array is copied for the one that changes. The first
// less the offset is ready before the first draw; the last share is another one, since there are at least two.
fn refreshed_less(given: Shared, offset: u32, n: usize, m: u32, tape: &[u32]) -> Option<Shared>
    requires { (offset < m) × Held 8 n m given.words }
    ensures { Gave n m result (run (refresh (arithmetic m) (take_from_first (arithmetic m) offset (take n given.words))) tape.now given.cursor) }
{
    let first = sub_mod(given.words[0], offset, m);
    let mut words = [0u32; Params::MOST];
    let mut cur = given.cursor;
    let last = n - 1;
    let mut last_share = given.words[last];
    for i in 0..last {
        let Some((r, next)) = cur.draw(tape, m) else {
            return None;
        };
        let x = if i == 0 { first } else { given.words[i] };
        words[i] = add_mod(x, r, m);
        last_share = sub_mod(last_share, r, m);
        cur = next;
    }
    words[last] = last_share;
    Some(Row { words, cursor: cur })
}

// Of what steps gave; where the tape has ended, nothing follows.
pub fn close_less(
    given: Option<Shared>,
    offset: u32,
    n: usize,
    m: u32,
    tape: &[u32],
) -> Option<Shared>
    requires { (offset < m) × IfSome given (λ row. Held 8 n m row.words) }
    ensures { MatchOption given (result ≡ None) (λ row. Gave n m result (run (refresh (arithmetic m) (take_from_first (arithmetic m) offset (take n row.words))) tape.now row.cursor)) }
{
    refreshed_less(given?, offset, n, m, tape)
}
