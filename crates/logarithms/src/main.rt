// Prints the meter's g, eight times the base-2 logarithm of n, rounded down: a line for each n from 1 to 255
// (docs/SPECIFICATION.md §10.2).
#![tactic(auto)]

ghost use Rattle.std.specs.Prelude.{◌≤◌};

use std::io;

fn put(rt: &impl Print, n: u64) -> io::Result<()>
    requires { (1 ≤ n) × (n ≤ 255) }
{
    let g = meter::log::eighths(n);
    println!(rt; "{g}")
}

fn put_all(rt: &impl Print) -> io::Result<()> {
    for n in 1..256 {
        put(rt, n)?;
    }
    Ok(())
}

fn main(rt: HostRuntime) {
    // What cannot be written is lost.
    let _ = put_all(&rt);
}
