// Parameter sets and kinds, right and wrong. They are numbers, as the gadgets take them, since wrong ones are tried too.
use super::{Pair, Round};

pub const SETS: [u32; 3] = [44, 65, 87];

// Numbers that are no parameter set, some of them one in fewer bits.
const NO_SETS: [u32; 12] = [
    0, 1, 43, 45, 64, 66, 86, 88, 300, 65601, 2147483735, 4294967295,
];

// Numbers that are no kind, some of them one in fewer bits.
const NO_KINDS: [u32; 6] = [0, 3, 257, 65538, 2147483649, 4294967295];

fn known(i: u32) -> u32 {
    SETS[(i % 3) as usize]
}

fn no_set(i: u32) -> u32 {
    NO_SETS[(i % 12) as usize]
}

fn no_kind(i: u32) -> u32 {
    NO_KINDS[(i % 6) as usize]
}

// One of the two is out of its range, by turns.
fn astray(turn: u32) -> Pair {
    if turn % 2 == 1 {
        return Pair::of(known(turn / 12), no_kind(turn / 2));
    }
    Pair::of(no_set(turn / 2), turn / 2 % 2 + 1)
}

impl Round {
    // A sampler's set.
    pub fn set(self) -> u32 {
        match self.r % 8 {
            6 => no_set(self.r / 8),
            7 => self.x,
            i => known(i),
        }
    }

    // The set and the kind of widening, the verdict, and Decompose, which reads the set alone.
    pub fn set_and_kind(self) -> Pair {
        match self.r % 8 {
            6 => astray(self.r / 8),
            7 => Pair::of(known(self.x), self.x / 3 % 4),
            i => Pair::of(known(i), i % 2 + 1),
        }
    }
}
