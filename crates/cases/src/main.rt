// Runs the public gadgets on the hand cases and on many pseudo-random calls, and prints for each gadget and share count how often
// each number was answered and a checksum of everything answered. docs/CASES.md says which calls are made.
#![tactic(auto)]

use calls::{Call, Tally, far_counts};
use gate::Answer;
use pairs::{Gadget, Pair};
use params::Params;
use rounds::all_rounds;
use samplers::{sample, sample_polynomial};
use shown::{all_sizes, in_shares, numbers};
use std::io;
use tape::Cursor;

// A draw below q from a tape of two words: what it gives, and the words used.
fn draw_below_q(rt: &impl Print, tape: [u32; 2]) -> io::Result<()> {
    let Some((r, c)) = Cursor::start().draw(&tape, Params::Q) else {
        return println!(rt; "draw ended");
    };
    println!(rt; "draw {r} {}", c.at)
}

// A call on two shares: the number, the words used, and the output slice, which begins as 7s.
fn on_two(
    rt: &impl Print,
    gadget: Gadget,
    p: Pair,
    shares: [u32; 2],
    tape: &[u32],
) -> io::Result<()> {
    let mut out = [7u32; 2];
    let call = Call {
        gadget,
        p,
        shares: &shares,
        room: 2,
    };
    let told = call.told(tape, &mut out);
    print!(rt; "{gadget} {} {}", told.number(), told.used())?;
    numbers(rt, &out)?;
    println!(rt; "")
}

// Shifts by 1 from 10.
fn shifts(rt: &impl Print) -> io::Result<()> {
    let p = Pair::of(10, 1);
    on_two(rt, Gadget::Shift, p, [7, 8], &[3, 4])?;
    on_two(rt, Gadget::Shift, p, [7, 8], &[12, 3, 6, 4])?;
    on_two(rt, Gadget::Shift, p, [7, 8], &[12, 3, 6])
}

fn by_hand(rt: &impl Print) -> io::Result<()> {
    draw_below_q(rt, [8380417, 8380416])?;
    draw_below_q(rt, [8388608, 0])?;
    shifts(rt)?;
    on_two(rt, Gadget::ToBoolean, Pair::one(3), [6, 7], &[0, 0, 3])?;
    on_two(rt, Gadget::ToArithmetic, Pair::one(4), [6, 3], &[1, 2, 7])?;
    on_two(rt, Gadget::Sample, Pair::one(44), [0, 0], &[0; 6])
}

// The end of a line.
fn told(rt: &impl Print, t: Tally) -> io::Result<()> {
    numbers(rt, &t.counts)?;
    println!(rt; " {}", t.sum)
}

fn lines(rt: &impl Print, gadget: Gadget) -> io::Result<()> {
    for n in 0..11 {
        print!(rt; "{gadget} {n}")?;
        told(rt, all_rounds(gadget, n))?;
    }
    Ok(())
}

fn far_line<F: Fn(&[u32], usize, u32, &mut [u32]) -> Answer>(
    rt: &impl Print,
    gadget: Gadget,
    sampler: F,
) -> io::Result<()>
    requires { F.IsAlwaysCallable sampler }
{
    print!(rt; "{gadget} far")?;
    told(rt, far_counts(sampler))
}

fn main(rt: HostRuntime) -> io::Result<()> {
    by_hand(&rt)?;
    for gadget in Gadget::ALL {
        lines(&rt, gadget)?;
    }
    far_line(&rt, Gadget::Sample, sample)?;
    far_line(&rt, Gadget::SamplePolynomial, sample_polynomial)?;
    in_shares(&rt)?;
    all_sizes(&rt)
}
