// Holds Decompose in shares to a plain one: in two shares at every residue, for every set; in more shares at those where the parts change,
// and at many others. docs/CASES.md says at which.
#![tactic(auto)]

mod line;
mod lines;
mod plain;

ghost use Rattle.std.specs.Prelude.{◌≤◌};

use lines::tried;
use std::io;

// The set, the share count, how many residues were tried, at how many the parts were wrong, and the checksum.
fn print_line(rt: &impl Print, set: u32, n: usize) -> io::Result<()>
    requires { n ≤ 8 }
{
    let line = tried(set, n);
    println!(rt; "{set} {n} {} {} {}", line.residues, line.wrong, line.sum)
}

fn print_lines(rt: &impl Print, set: u32) -> io::Result<()> {
    for n in 2..9 {
        print_line(rt, set, n)?;
    }
    Ok(())
}

fn main(rt: HostRuntime) -> io::Result<()> {
    for set in [44, 65, 87] {
        print_lines(&rt, set)?;
    }
    Ok(())
}
