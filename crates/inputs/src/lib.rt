// What the rounds of `cases` call with: the shares, and the room for the output.
#![tactic(auto)]

use aims::value;
use pairs::{Gadget, Pair, Round};
use trials::{complete, fill, minus, reduce};

// How many words the output slice has. It is cut from an array, which it does not go beyond.
pub fn room_for(round: Round, n: usize) -> usize {
    if round.gadget == Gadget::SamplePolynomial {
        return polynomial_room(round.r, n);
    }
    match round.r % 7 {
        3 => n / 2,
        5 => 10,
        _ => n,
    }
}

// The same for a polynomial.
fn polynomial_room(r: u32, n: usize) -> usize {
    let right = n.saturating_mul(256);
    match r / 8 {
        0 => right,
        1 => n,
        2 => right.saturating_sub(1),
        3 => right.saturating_add(1),
        4 => 0,
        _ => 2560,
    }
}

// In every third round the shares have a value that is aimed at.
fn aim(round: Round, p: Pair, shares: &mut [u32], m: u32) {
    if round.r % 3 != 1 || m < 2 {
        return;
    }
    let value = value(round, p, m - 1);
    if round.gadget.is_boolean() {
        complete(shares, value, |left, share| left ^ share);
    } else {
        complete(shares, value, |left, share| minus(left, share, m));
    }
}

// In every fifth round the first share is not below m.
fn spoil(r: u32, shares: &mut [u32], m: u32) {
    if r % 5 == 4 {
        if let Some(first) = shares.first_mut() {
            *first = m;
        }
    }
}

// Fills the shares for a round.
pub fn fill_shares(round: Round, p: Pair, shares: &mut [u32]) {
    let m = round.gadget.bound(p.first);
    fill(shares, round.x);
    reduce(shares, m);
    aim(round, p, shares, m);
    spoil(round.r, shares, m);
}
