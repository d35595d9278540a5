// The calls of the public gadgets in rounds, and what is kept of their answers.
#![tactic(auto)]

mod tapes;

use calls::{Call, Tally};
use inputs::{fill_shares, room_for};
use pairs::{Gadget, Round};
use tapes::on_tapes;
use trials::{fill, low, mix};

// A call for a polynomial makes 256 coefficients, so it has few rounds.
fn rounds(gadget: Gadget) -> u32 {
    match gadget {
        Gadget::SamplePolynomial => 48,
        _ => 600,
    }
}

// One round on a tape and shares of the right lengths, which it fills.
fn filled(gadget: Gadget, r: u32, tape: &mut [u32], shares: &mut [u32], t: &mut Tally) {
    let x = fill(tape, mix(mix(u32::from(gadget), low(shares.len())), r));
    let round = Round { gadget, r, x };
    let p = round.parameters();
    fill_shares(round, p, shares);
    let call = Call {
        gadget,
        p,
        shares,
        room: room_for(round, shares.len()),
    };
    on_tapes(call, tape, t);
}

// A polynomial of eight shares has 137216 draws.
fn taped(gadget: Gadget, r: u32, shares: &mut [u32], t: &mut Tally) {
    match gadget {
        Gadget::SamplePolynomial => filled(gadget, r, &mut [0; 140000], shares, t),
        _ => filled(gadget, r, &mut [0; 4096], shares, t),
    }
}

// All rounds with n shares, of ten at most.
pub fn all_rounds(gadget: Gadget, n: usize) -> Tally {
    let mut t = Tally::start();
    for r in 0..rounds(gadget) {
        let mut shares = [0u32; 10];
        taped(gadget, r, &mut shares[..n.min(10)], &mut t);
    }
    t
}
