// The refresh of either kind: the one that closes a gadget, and those between steps.
ghost use Rattle.std.specs.Prelude.{◌≡◌, take, None, IfSome, MatchOption};
ghost use Rattle.draws.specs.Draws.{run};
ghost use Rattle.shares.specs.Sharing.{bound};
ghost use Rattle.shares.specs.Refresh.{refresh};
ghost use Rattle.shares.specs.Arrays.{Held, Gave};

use super::{Row, ShareKind};
use tape::Cursor;

// It reads the shares where the steps left them and writes others at the same places: a copy would have to wait for the single stores before it. The last
// share stays in a local while the draws go by, so that no turn waits for the store of the one before.
fn refreshed<K: ShareKind, const N: usize>(
    given: Row<N>,
    n: usize,
    kind: K,
    tape: &[u32],
) -> Option<Row<N>>
    requires { Held N n (bound (K.kind kind)) given.words }
    ensures { Gave n (bound (K.kind kind)) result (run (refresh (K.kind kind) (take n given.entry.words)) tape.now given.entry.cursor) }
{
    let bound = kind.bound();
    let mut words = [0u32; N];
    let mut cur = given.cursor;
    let last = n - 1;
    let mut last_share = given.words[last];
    for i in 0..last {
        let Some((r, next)) = cur.draw(tape, bound) else {
            return None;
        };
        words[i] = kind.plus(given.words[i], r);
        last_share = kind.minus(last_share, r);
        cur = next;
    }
    words[last] = last_share;
    Some(Row { words, cursor: cur })
}

// Of what steps gave; where the tape has ended, nothing follows.
pub fn close<K: ShareKind, const N: usize>(
    given: Option<Row<N>>,
    n: usize,
    kind: K,
    tape: &[u32],
) -> Option<Row<N>>
    requires { IfSome given (λ row. Held N n (bound (K.kind kind)) row.words) }
    ensures { MatchOption given.entry (result ≡ None) (λ row. Gave n (bound (K.kind kind)) result (run (refresh (K.kind kind) (take n row.words)) tape.now row.cursor)) }
{
    refreshed(given?, n, kind, tape)
}

// Of shares in hand, as if steps had given them.
pub fn refresh<K: ShareKind, const N: usize>(
    words: [u32; N],
    n: usize,
    kind: K,
    cursor: Cursor,
    tape: &[u32],
) -> Option<Row<N>>
    requires { Held N n (bound (K.kind kind)) words }
    ensures { Gave n (bound (K.kind kind)) result (run (refresh (K.kind kind) (take n words.entry)) tape.now cursor) }
{
    refreshed(Row { words, cursor }, n, kind, tape)
}
