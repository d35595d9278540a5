// The self test: the cases by hand of document 01, run through the public gadgets, of Boolean to arithmetic through its steps, so that a device can
// tell at power-on that its build and its processor keep to them.
#![tactic(auto)]

mod cases;

ghost use Rattle.std.specs.Prelude.{◌≡◌, ◌<◌, ◌^◌, length, not, position, flat_map};

use cases::{bounds, conversions, counts, draws, offsets, parts, shifts, verdicts};

// How many cases come before the first that came out wrong.
fn before_wrong(groups: &[&[bool]]) -> Option<usize>
    requires { length (flat_map (λ g. g.now) groups.now) < 2 ^ 64 }
    ensures { result ≡ position not (flat_map (λ g. g.now) groups.now) }
{
    groups
        .iter()
        .flat_map(|group| group.iter())
        .position(|right| !right)
}

// 0, or the number of the first case that came out wrong.
pub fn self_test() -> u32
    ensures { result ≡ 0 }
{
    let groups: [&[bool]; 8] = [
        &draws(),
        &shifts(),
        &conversions(),
        &offsets(),
        &parts(),
        &verdicts(),
        &counts(),
        &bounds(),
    ];
    match before_wrong(&groups) {
        Some(before) => before as u32 + 1,
        None => 0,
    }
}
