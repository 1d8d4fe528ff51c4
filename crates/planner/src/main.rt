// Gives what a planner wants to know of the table and the calls on standard input (docs/SPECIFICATION.md §14.4).
#![tactic(auto)]

fn main(rt: HostRuntime) {
    stream::serve::<{ response::INPUT }, { response::LONGEST }, _, _, _, _>(
        &mut rt.stdin(),
        &rt,
        response::room_for,
        response::plan,
    );
}
