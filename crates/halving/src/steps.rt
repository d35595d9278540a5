// One halving, 2m to m, in the steps of document 01.
ghost use Rattle.std.specs.Prelude.{◌≡◌, ◌*◌, ◌≤◌, take};
ghost use Rattle.numbers.specs.Lists.{Words};
ghost use Rattle.draws.specs.Draws.{run};
ghost use Rattle.shares.specs.Arrays.{Held, Gave};
ghost use Rattle.halves.specs.Halving.{less, evened, halves, halving};

use super::parity::shared_parity;
use params::Params;
use shares::{Row, Shared};
use tape::Cursor;
use words::{add_mod, sub_mod};

// The steps after the shared parity, in one pass that ends at the last share: A is subtracted, the parities of the others move into the last, and all
// are halved. Each word is written once, and nothing is done for the places after the last. Two arrays are read at one place, so places are counted.
fn finished(
    shares: [u32; Params::MOST],
    a: [u32; Params::MOST],
    n: usize,
    m: u32,
) -> [u32; Params::MOST]
    requires { Held 8 n (2 * m) shares × Words 8 (2 * m) a × (m ≤ 2147483647) }
    ensures { Words 8 m result × (take n result ≡ halves (evened (2 * m) (less (2 * m) (take n a) (take n shares)))) }
{
    let double = 2 * m;
    let mut words = [0u32; Params::MOST];
    let mut sum = 0u32;
    for i in 0..Params::MOST {
        let d = sub_mod(shares[i], a[i], double);
        if i + 1 == n {
            words[i] = add_mod(d, sum, double) / 2;
            return words;
        }
        sum = add_mod(sum, d % 2, double);
        words[i] = d / 2;
    }
    words
}

pub fn halve(
    shares: [u32; Params::MOST],
    n: usize,
    m: u32,
    cursor: Cursor,
    tape: &[u32],
) -> Option<Shared>
    requires { Held 8 n (2 * m) shares × (m ≤ 2147483647) }
    ensures { Gave n m result (run (halving m (take n shares)) tape.now cursor) }
{
    let parity = shared_parity(shares, n, 2 * m, cursor, tape)?;
    Some(Row {
        words: finished(shares, parity.words, n, m),
        cursor: parity.cursor,
    })
}
