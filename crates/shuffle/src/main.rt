// Answers the table and the calls on standard input (docs/SPECIFICATION.md §8).
#![tactic(auto)]

fn main(rt: HostRuntime) {
    stream::serve::<65536, { transcript::LONGEST }, _, _, _, _>(
        &mut rt.stdin(),
        &rt,
        transcript::room_for,
        transcript::transcribe,
    );
}
