// Runs the cases on standard input through the library, one after another. A case is its length on a line and then as many
// bytes; what is written for it is followed by the line `--`.
#![tactic(auto)]

ghost use Rattle.std.specs.Prelude.{◌<◌, length};
ghost use Rattle.replay.specs.Case.{Past};

use decimal::read::read_number;
use lines::read::place;
use std::io;

// The bytes of one case.
fn answer(rt: &impl Print, bytes: &[u8], out: &mut [u8]) -> io::Result<()> {
    stream::respond(rt, bytes, out, &transcript::transcribe)?;
    println!(rt; "--")
}

// The case at a place, and the place past it; the end where no length stands there. What cannot be written is lost.
fn case(rt: &impl Print, text: &[u8], at: usize, out: &mut [u8]) -> usize
    requires { at < length text.now }
    ensures { Past text.now at result }
{
    let rest = &text[at..];
    let Some(e) = place(rest, b'\n') else {
        return text.len();
    };
    let Some(k) = read_number(&rest[..e]) else {
        return text.len();
    };
    let after = &rest[e..];
    let n = k as usize;
    if after.len() <= n {
        return text.len();
    }
    let _ = answer(rt, &after[1..n + 1], out);
    at + e + n + 1
}

fn main(rt: HostRuntime) {
    let mut input: [u8; 65536] = stream::zeros();
    let n = stream::read_full(&mut rt.stdin(), &mut input);
    let text = &input[..n];
    let mut out: [u8; transcript::LONGEST] = stream::zeros();
    let mut at: usize = 0;
    while at < text.len() {
        at = case(&rt, text, at, &mut out);
    }
}
