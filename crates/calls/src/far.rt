// Calls of a sampler with a stated share count far above the largest.
use super::{Tally, Told};
use gate::Answer;

// Some are 0 or 2 in 8, 16 or 32 bits, or have the 256-fold of 0 or 2 in 64.
const COUNTS: [usize; 10] = [
    11,
    256,
    258,
    65536,
    65538,
    4294967296,
    4294967298,
    72057594037927936,
    72057594037927938,
    18446744073709551615,
];

// Some lengths are right for 0 or 2 shares.
const ROOMS: [usize; 4] = [0, 2, 512, 2560];

fn at_count<F: Fn(&[u32], usize, u32, &mut [u32]) -> Answer>(sampler: F, n: usize, t: &mut Tally)
    requires { F.IsAlwaysCallable sampler }
{
    for room in ROOMS {
        let mut array = [7u32; 2560];
        let told = sampler(&[0; 6], n, 44, &mut array[..room.min(2560)]);
        t.note(Told::Answer(told), &array);
    }
}

pub fn far_counts<F: Fn(&[u32], usize, u32, &mut [u32]) -> Answer>(sampler: F) -> Tally
    requires { F.IsAlwaysCallable sampler }
{
    let mut t = Tally::start();
    for n in COUNTS {
        at_count(&sampler, n, &mut t);
    }
    t
}
