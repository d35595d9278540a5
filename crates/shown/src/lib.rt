// What `cases` prints of single values: numbers, Decompose and the verdict on residues in shares, and the verdicts at the bounds.
#![tactic(auto)]

ghost use Rattle.std.specs.Prelude.{ℕ, ◌≤◌};

use answers::{on_words, on_zeros, sizes};
use pairs::{Gadget, Pair, SETS};
use std::io;
use trials::minus;

// Each word after a space.
pub fn numbers(rt: &impl Print, words: &[u32]) -> io::Result<()> {
    for word in words {
        print!(rt; " {word}")?;
    }
    Ok(())
}

fn decomposed_line(rt: &impl Print, residue: u32, n: usize) -> io::Result<()>
    requires { n ≤ 8 }
{
    let told = answers::decomposed(residue, n);
    print!(rt; "{} {n} {residue}", Gadget::Decompose)?;
    println!(rt; " {} {} {}", told.number, told.high, told.low)
}

fn verdict_line(rt: &impl Print, residue: u32, n: usize) -> io::Result<()>
    requires { n ≤ 8 }
{
    let told = on_zeros(residue, n);
    print!(rt; "{} {n} {residue}", Gadget::Verdict)?;
    println!(rt;
        " {} {} {} {}",
        told.number, told.verdict, told.opened, told.used
    )
}

// The line of each residue in n shares.
fn lines<F: Fn(u32, usize) -> io::Result<()>>(residues: &[u32], n: usize, line: F) -> io::Result<()>
    requires { (residue : ℕ) → F.pre line residue n }
{
    for residue in residues {
        line(*residue, n)?;
    }
    Ok(())
}

fn all_lines<F: Fn(u32, usize) -> io::Result<()>>(residues: &[u32], line: F) -> io::Result<()>
    requires { (residue n : ℕ) → n ≤ 8 → F.pre line residue n }
{
    for n in 2..9 {
        lines(residues, n, &line)?;
    }
    Ok(())
}

// Document 01's cases of Decompose, and those of the verdict: 130993 and 130994 of both signs, and 131150.
pub fn in_shares(rt: &impl Print) -> io::Result<()> {
    let edges = [95232, 95233, 8380416, 8285185, 8285184];
    all_lines(&edges, |residue, n| decomposed_line(rt, residue, n))?;
    let bounds = [130993, 8249424, 130994, 8249423, 131150];
    all_lines(&bounds, |residue, n| verdict_line(rt, residue, n))
}

// The verdict, or 9 for a refusal.
fn verdict_on(rt: &impl Print, residue: u32, n: usize, p: Pair) -> io::Result<()>
    requires { n ≤ 8 }
{
    print!(rt; " {}", on_words(residue, n, p).unwrap_or(9))
}

// The verdicts on four sizes, of both signs.
fn sizes_line(rt: &impl Print, p: Pair, n: usize) -> io::Result<()>
    requires { n ≤ 8 }
{
    print!(rt; "{} {} {} {n}", Gadget::Verdict, p.first, p.second)?;
    for size in sizes(p) {
        verdict_on(rt, size, n, p)?;
        verdict_on(rt, minus(0, size, 8380417), n, p)?;
    }
    println!(rt; "")
}

fn sizes_lines(rt: &impl Print, p: Pair) -> io::Result<()> {
    for n in 2..9 {
        sizes_line(rt, p, n)?;
    }
    Ok(())
}

// For each set, for each kind, for 2 to 8 shares.
pub fn all_sizes(rt: &impl Print) -> io::Result<()> {
    for set in SETS {
        sizes_lines(rt, Pair::of(set, 1))?;
        sizes_lines(rt, Pair::of(set, 2))?;
    }
    Ok(())
}
