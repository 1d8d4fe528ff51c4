// Prints the trial of the seed on standard input (docs/WORKLOAD.md).
#![tactic(auto)]

fn main(rt: HostRuntime) {
    // The first 12 bytes decide whether the input is a seed, and which.
    let mut input: [u8; 12] = stream::zeros();
    let n = stream::read_full(&mut rt.stdin(), &mut input);
    let mut out: [u8; workload::LONGEST] = stream::zeros();
    // What cannot be written is lost.
    let _ = stream::respond(&rt, &input[..n], &mut out, &workload::load);
}
