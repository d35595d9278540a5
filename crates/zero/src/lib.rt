// The zero test: a value is multiplied by random scalars that are not zero, so that zero stays zero and nothing else becomes it.
#![tactic(auto)]

ghost use Rattle.std.specs.Prelude.{◌≡◌, take};
ghost use Rattle.numbers.specs.Modulo.{q};
ghost use Rattle.draws.specs.Draws.{run};
ghost use Rattle.shares.specs.Arrays.{Held, Gave};
ghost use Rattle.sizes.specs.ZeroTest.{scaled, zero_test};

use params::Params;
use shares::{Arithmetic, Row, Shared, refresh};
use tape::Cursor;
use words::mul_q;

fn scaled(shares: [u32; Params::MOST], c: u32) -> [u32; Params::MOST]
    ensures { result ≡ scaled q c shares }
{
    shares.map(|x| mul_q(x, c))
}

// A draw below q - 1, plus 1, is a scalar that is not zero.
pub fn zero_test(
    shares: [u32; Params::MOST],
    n: usize,
    cursor: Cursor,
    tape: &[u32],
) -> Option<Shared>
    requires { Held 8 n q shares }
    ensures { Gave n q result (run (zero_test q (take n shares)) tape.now cursor) }
{
    let kind = Arithmetic { m: Params::Q };
    let mut given = Row {
        words: shares,
        cursor,
    };
    for _ in 0..n {
        let Some((r, next)) = given.cursor.draw(tape, Params::Q - 1) else {
            return None;
        };
        given = refresh(scaled(given.words, r + 1), n, kind, next, tape)?;
    }
    Some(given)
}
