// Plays arrivals against the scheduler on the table and questions on standard input (docs/SPECIFICATION.md §13.4).
#![tactic(auto)]

fn main(rt: HostRuntime) {
    let mut input: [u8; lesson::INPUT] = stream::zeros();
    let n = stream::read_full(&mut rt.stdin(), &mut input);
    let mut out: [u8; 65536] = stream::zeros();
    // What cannot be written is lost.
    let _ = stream::respond(&rt, &input[..n], &mut out, &lesson::contest);
}
