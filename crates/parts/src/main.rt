// Reads the text of one explanation from standard input and prints its parts as numbers, or a question mark where the bytes are no
// such text (docs/SPECIFICATION.md §11.5).
#![tactic(auto)]

ghost use Rattle.std.specs.Prelude.{◌≤◌};

use std::io;
use wording::{Cause, Held, Parts};

fn put_job(rt: &impl Print, j: Held) -> io::Result<()> {
    let row = j.row;
    let due = j.due;
    let budget = j.budget;
    let candidate = u64::from(j.candidate);
    print!(rt; "J\t{row}\t{due}\t{budget}\t{candidate}\n")
}

fn put_jobs(rt: &impl Print, jobs: &[Held]) -> io::Result<()> {
    for &j in jobs {
        put_job(rt, j)?;
    }
    Ok(())
}

fn put_brittle(rt: &impl Print, brittle: Option<u64>) -> io::Result<()> {
    if let Some(due) = brittle {
        print!(rt; "B\t{due}\n")?;
    }
    Ok(())
}

// The chosen row; then the deciding word after a 1, or two zeros.
fn put_choice(rt: &impl Print, chosen: u64, decided: Option<u64>) -> io::Result<()> {
    let given = u64::from(decided.is_some());
    let word = decided.unwrap_or(0);
    print!(rt; "C\t{chosen}\t{given}\t{word}\n")
}

// No `From`: the numbers are this program's, and `Cause` is another crate's type.
fn number_of(cause: Cause) -> u64 {
    match cause {
        Cause::Remaining => 1,
        Cause::Word => 2,
        Cause::NoWord => 3,
        Cause::Nothing => 4,
    }
}

fn put_parts(rt: &impl Print, p: Parts) -> io::Result<()>
    requires { p.count ≤ 16 }
{
    put_jobs(rt, &p.jobs[..p.count])?;
    put_brittle(rt, p.brittle)?;
    put_choice(rt, p.chosen, p.decided)?;
    let span = p.span;
    let cause = number_of(p.cause);
    print!(rt; "S\t{span}\t{cause}\n")
}

// What cannot be written is lost.
fn main(rt: HostRuntime) {
    let mut input = [0u8; 4096];
    let n = stream::read_full(&mut rt.stdin(), &mut input);
    let _ = match reader::read(&input[..n]) {
        Some(p) => put_parts(&rt, p),
        None => print!(&rt; "?\n"),
    };
}
