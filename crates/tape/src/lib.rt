// The tape of random words: its place, and one draw.
#![tactic(auto)]

ghost use Rattle.std.specs.Prelude.{◌≡◌, ◌%◌, ◌^◌, ◌≤◌};
ghost use Rattle.numbers.specs.Bits.{bits_of};
ghost use Rattle.tape.specs.Tape.{start, draw_at};
ghost use Rattle.tape.specs.Answers.{draw_stands_for};

use words::bits;

// The place on the tape that each draw hands on to the next: the number of words read so far.
#[derive(Clone, Copy)]
pub struct Cursor {
    pub at: usize,
}

// 2 to the number of bits of a draw below m: up to 2^32, so it has 64 bits.
fn span_of(m: u32) -> u64
    requires { 2 ≤ m }
    ensures { result ≡ 2 ^ bits_of m }
{
    1u64 << bits(m)
}

// The low bits of a word: its remainder by that power of two, which compiles to a mask.
fn low(w: u32, span: u64) -> u32
    requires { 1 ≤ span }
    ensures { result ≡ w % span }
{
    (w as u64 % span) as u32
}

impl Cursor {
    // Each call reads the tape from place 0.
    pub fn start() -> Self
        ensures { result ≡ start }
    {
        Cursor { at: 0 }
    }

    // A draw below m, with the moved place; or that the tape has ended. Words whose low bits are not below m are skipped.
    pub fn draw(self, tape: &[u32], m: u32) -> Option<(u32, Cursor)>
        requires { 2 ≤ m }
        ensures { draw_stands_for result ≡ draw_at tape.now self m }
    {
        let span = span_of(m);
        // A `for` over the places made every draw slower by a third: this loop has one counter, which is the place that is handed on.
        let mut at = self.at;
        while at < tape.len() {
            let r = low(tape[at], span);
            at += 1;
            if r < m {
                return Some((r, Cursor { at }));
            }
        }
        None
    }
}
