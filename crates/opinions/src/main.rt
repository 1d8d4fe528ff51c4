// Gives the opinions on the tables on standard input (docs/SPECIFICATION.md §8.6).
#![tactic(auto)]

fn main(rt: HostRuntime) {
    stream::serve::<{ desk::INPUT }, { desk::LONGEST }, _, _, _, _>(
        &mut rt.stdin(),
        &rt,
        desk::room_for,
        desk::opinions,
    );
}
