// The cases by hand of document 01, in its order. Each function answers of its cases whether they came out right.
#![tactic(auto, using(passing::proofs::CaseLaws::passing))]

ghost use Rattle.std.specs.Prelude.{◌≡◌, true, [], ◌∷◌, ◌+◌, ◌<◌, replicate};
ghost use Rattle.numbers.specs.Tests.{both};
ghost use Rattle.gate.specs.Gadget.{tells};
ghost use Rattle.gate.specs.Judge.{judges};
ghost use Rattle.demands.specs.Gadgets.{decompose_gadget, verdict_gadget};
ghost use Rattle.passing.specs.Held.{sevens, small_tape, held, parts_shown, verdict_shown};

use held::{
    decompose_gives, refresh_gives, sample_gives, shift_gives, to_arithmetic_gives,
    to_boolean_gives, verdict_gives,
};
use params::Params;

// Words that no draw skips, for the cases in shares.
const SMALL_TAPE: [u32; 26] = [
    3, 10, 17, 24, 31, 38, 45, 52, 59, 66, 73, 80, 87, 94, 0, 7, 14, 21, 28, 35, 42, 49, 56, 63,
    41, 70,
];

// Two draws below q, which a refresh of zeros shows; and Ψ(5,3) at k = 4, which is 3: the second share before the closing refresh takes 4 from it.
pub fn draws() -> [bool; 3]
    ensures { result ≡ replicate 3 true }
{
    [
        refresh_gives(&[0, 0], &[8380417, 8380416], Params::Q, [0, 2, 8380416, 1]),
        refresh_gives(&[0, 0], &[8388608], Params::Q, [0, 1, 0, 0]),
        to_arithmetic_gives([5, 3, 0, 0, 0, 0, 0, 0], &[0, 0, 4], 4, [0, 3, 7, 15]),
    ]
}

pub fn shifts() -> [bool; 3]
    ensures { result ≡ replicate 3 true }
{
    [
        shift_gives(&[7, 8], &[3, 4], 10, 1, [0, 2, 0, 2]),
        shift_gives(&[7, 8], &[12, 3, 6, 4], 10, 1, [0, 4, 0, 2]),
        shift_gives(&[7, 8], &[12, 3, 6], 10, 1, [5, 0, 7, 7]),
    ]
}

pub fn conversions() -> [bool; 2]
    ensures { result ≡ replicate 2 true }
{
    [
        to_arithmetic_gives([6, 3, 0, 0, 0, 0, 0, 0], &[1, 2, 7], 4, [0, 3, 9, 12]),
        to_boolean_gives(&[6, 7], &[0, 0, 3], 3, [0, 3, 7, 2]),
    ]
}

// The offset γ1 − 1 of each set: of zero words the mask is what is taken off; of the others the numbers 6 and 5 are left, which go through the conversion.
pub fn offsets() -> [bool; 3]
    ensures { result ≡ replicate 3 true }
{
    [
        sample_gives(&[0, 0, 0, 0, 0, 0], 44, [0, 6, 8249346, 0]),
        sample_gives(&[5, 3, 1, 2, 7, 4], 65, [0, 6, 7864327, 8372226]),
        sample_gives(&[6, 3, 2, 1, 5, 9], 87, [0, 6, 5767179, 2088956]),
    ]
}

// Decompose for set 44 of 5000000 and a second share.
fn decomposes(second: u32, high: u32, low: u32) -> bool
    ensures { result ≡ held (0 ∷ 26 ∷ high ∷ low ∷ []) (parts_shown (tells (decompose_gadget 44) (5000000 ∷ second ∷ []) small_tape sevens)) }
{
    decompose_gives(&[5000000, second], &SMALL_TAPE, 44, [0, 26, high, low])
}

// 95232 and 95233; 8380416; 8285185 and 8285184.
pub fn parts() -> [bool; 5]
    ensures { result ≡ replicate 5 true }
{
    [
        decomposes(3475649, 0, 95232),
        decomposes(3475650, 1, 8285186),
        decomposes(3380416, 0, 8380416),
        decomposes(3285185, 0, 8285185),
        decomposes(3285184, 43, 95232),
    ]
}

// The verdict on 5000000 and a second share.
fn judges(set: u32, kind: u32, second: u32, wanted: [u32; 4]) -> bool
    ensures { result ≡ held wanted (verdict_shown (judges (verdict_gadget set kind) (5000000 ∷ second ∷ []) small_tape)) }
{
    verdict_gives(&[5000000, second], &SMALL_TAPE, set, kind, wanted)
}

// 130993 and its negation are accepted; 130994, its negation and 131150 are rejected. Each reads 24 words.
pub fn verdicts() -> [bool; 5]
    ensures { result ≡ replicate 5 true }
{
    [
        judges(44, 1, 3511410, [0, 24, 1, 2509824]),
        judges(44, 1, 3249424, [0, 24, 1, 2509824]),
        judges(44, 1, 3511411, [0, 24, 0, 0]),
        judges(44, 1, 3249423, [0, 24, 0, 0]),
        judges(44, 1, 3511567, [0, 24, 0, 0]),
    ]
}

// 1079 draws with eight shares; lengths 1 and 9 are refused, and so is a share of q.
pub fn counts() -> [bool; 4]
    ensures { result ≡ replicate 4 true }
{
    [
        verdict_gives(
            &[130993, 0, 0, 0, 0, 0, 0, 0],
            &[0; 1079],
            44,
            1,
            [0, 1079, 1, 1024],
        ),
        refresh_gives(&[0], &[0, 0], Params::Q, [1, 0, 7, 7]),
        refresh_gives(
            &[0, 0, 0, 0, 0, 0, 0, 0, 0],
            &[0, 0],
            Params::Q,
            [1, 0, 7, 7],
        ),
        refresh_gives(&[0, 8380417], &[0, 0], Params::Q, [4, 0, 7, 7]),
    ]
}

// The bound a of the other sets and kinds: a − 1 is accepted, a is rejected.
fn bound_at(set: u32, kind: u32, second: u32, used: u32, opened: u32) -> bool
    requires { second < 8380417 }
    ensures { result ≡ both (held (0 ∷ used ∷ 1 ∷ opened ∷ []) (verdict_shown (judges (verdict_gadget set kind) (5000000 ∷ second ∷ []) small_tape))) (held (0 ∷ used ∷ 0 ∷ 0 ∷ []) (verdict_shown (judges (verdict_gadget set kind) (5000000 ∷ (second + 1) ∷ []) small_tape))) }
{
    judges(set, kind, second, [0, used, 1, opened])
        && judges(set, kind, second + 1, [0, used, 0, 0])
}

pub fn bounds() -> [bool; 5]
    ensures { result ≡ replicate 5 true }
{
    [
        bound_at(44, 2, 3475570, 22, 1854289),
        bound_at(65, 1, 3904508, 26, 4902912),
        bound_at(65, 2, 3642108, 24, 5012295),
        bound_at(87, 1, 3904584, 24, 1658879),
        bound_at(87, 2, 3642184, 22, 5101477),
    ]
}
