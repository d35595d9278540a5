// Sampling of a mask in shares: the 256 coefficients of a polynomial, each in its row of the caller's slice.
#![tactic(auto)]

ghost use Rattle.std.specs.Prelude.{◌≡◌, ◌*◌, ◌≤◌, length};
ghost use Rattle.tape.specs.Tape.{start};
ghost use Rattle.draws.specs.Draws.{run};
ghost use Rattle.masks.specs.Sampling.{coefficient};
ghost use Rattle.masks.specs.Polynomial.{polynomial};
ghost use Rattle.polynomial.specs.Answers.{written_stands_for};

use copies::copy_out;
use lowering::close_less;
use params::Params;
use sample::drawn_mod_q;
use tape::Cursor;

// Fills the lent row with one coefficient, and answers the place of the next word; where the tape has ended, nothing is said of what was lent. The pass that closes it also takes γ1 − 1 off: it reads the shares where the conversion left them.
fn write_row(p: Params, n: usize, cursor: Cursor, tape: &[u32], row: &mut [u32]) -> Option<Cursor>
    requires { (2 ≤ n) × (n ≤ 8) × (length row.old ≡ n) }
    ensures { written_stands_for result row.new ≡ run (coefficient p n) tape.now cursor }
{
    let drawn = drawn_mod_q(p, n, cursor, tape);
    let closed = close_less(drawn, p.gamma1 - 1, n, Params::Q, tape)?;
    copy_out(closed.words, row);
    Some(closed.cursor)
}

pub fn polynomial(p: Params, n: usize, tape: &[u32], out: &mut [u32]) -> Option<Cursor>
    requires { (2 ≤ n) × (n ≤ 8) × (length out.old ≡ 256 * n) }
    ensures { written_stands_for result out.new ≡ run (polynomial p n out.old) tape.now start }
{
    let mut cursor = Cursor::start();
    for c in 0..Params::COEFFICIENTS {
        let place = c * n;
        cursor = write_row(p, n, cursor, tape, &mut out[place..place + n])?;
    }
    Some(cursor)
}
