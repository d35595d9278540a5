// What a caller gets back: the answers, and the output slice filled.
#![tactic(auto)]

ghost use Rattle.std.specs.Prelude.{◌≡◌, List, [], ℕ, ◌≤◌, length};
ghost use Rattle.shares.specs.Arrays.{shared};
ghost use Rattle.gate.specs.Told.{refused, silent_ran, ran_told, stands_for, parts_stand_for, judged_stands_for};

use checks::Refusal;
use copies::copy_out;
use shares::Shared;

// What a caller gets back: 0, or the number of a refusal; and how many tape words were read, 0 in a refusal.
#[repr(C)]
#[derive(Clone, Copy)]
pub struct Answer {
    pub number: u32,
    pub used: usize,
}

// What Decompose answers: 0, or the number of a refusal; the high part, and how many tape words were read, both 0 in a refusal.
#[repr(C)]
#[derive(Clone, Copy)]
pub struct Decomposed {
    pub number: u32,
    pub high: u32,
    pub used: usize,
}

// What the verdict answers: `number`, 0 or that of a refusal; `verdict`, 1 where the coefficient is accepted and 0 where it is rejected; what was
// opened, and how many tape words were read. In a refusal all but `number` are 0.
#[repr(C)]
#[derive(Clone, Copy)]
pub struct Judged {
    pub number: u32,
    pub verdict: u32,
    pub opened: u32,
    pub used: usize,
}

impl From<Refusal> for Answer {
    ghost from_gives = { λ refusal told. (out : List ℕ) → stands_for told out ≡ refused 0 refusal out };

    #[tactic(auto, unfolding(crate::specs::Told::refusal, crate::specs::Told::stands_for))]
    fn from(refusal: Refusal) -> Answer {
        Answer {
            number: u32::from(refusal),
            used: 0,
        }
    }
}

impl From<Refusal> for Decomposed {
    ghost from_gives = { λ refusal told. (out : List ℕ) → parts_stand_for told out ≡ refused 1 refusal out };

    #[tactic(auto, unfolding(crate::specs::Told::refusal, crate::specs::Told::parts_stand_for))]
    fn from(refusal: Refusal) -> Decomposed {
        Decomposed {
            number: u32::from(refusal),
            high: 0,
            used: 0,
        }
    }
}

impl From<Refusal> for Judged {
    ghost from_gives = { λ refusal told. judged_stands_for told ≡ refused 2 refusal [] };

    #[tactic(auto, unfolding(crate::specs::Told::refusal, crate::specs::Told::judged_stands_for))]
    fn from(refusal: Refusal) -> Judged {
        Judged {
            number: u32::from(refusal),
            verdict: 0,
            opened: 0,
            used: 0,
        }
    }
}

// The shares that a gadget gave fill the output slice; where the tape has ended, the slice stays as it was.
pub fn finish(given: Option<Shared>, out: &mut [u32]) -> Answer
    requires { length out.old ≤ 8 }
    ensures { stands_for result out.new ≡ ran_told 0 (silent_ran (shared (length out.old) given)) out.old }
{
    let Some(row) = given else {
        return Answer::from(Refusal::TapeEnded);
    };
    copy_out(row.words, out);
    Answer {
        number: 0,
        used: row.cursor.at,
    }
}
