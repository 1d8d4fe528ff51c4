// Plays the listing of docs/SPECIFICATION.md §7 call by call, and then long walks from fresh sessions, with arrivals and
// words drawn by 1,664,525 x + 1,013,904,223 modulo 2 to the 32nd. A line of the listing: clock, letter, number, two values.
// A line of a walk: kind, turns of three or four calls, how many calls were refused, how many with 5, the clock, a sum over
// all answers.
#![tactic(auto)]

ghost use Rattle.std.specs.Prelude.{◌<◌};

use session::{Outcome, Session};
use std::io;

fn put(rt: &impl Print, n: u64) -> io::Result<()> {
    print!(rt; "{n}\t")
}

fn end(rt: &impl Print) -> io::Result<()> {
    println!(rt)
}

fn told(rt: &impl Print, o: Outcome, letter: &[u8]) -> io::Result<Session> {
    let s = o.session;
    let n = session::show(o.answer);
    put(rt, s.clock)?;
    rt.write_all(letter)?;
    rt.write_all(b"\t")?;
    put(rt, n.number)?;
    put(rt, n.first)?;
    put(rt, n.second)?;
    end(rt)?;
    Ok(s)
}

fn fresh(words: &[u32]) -> Session {
    session::start::start(words).session
}

fn listing(rt: &impl Print) -> io::Result<()> {
    let s = fresh(&[2, 10, 10, 3, 20, 15]);
    let s = told(rt, calls::arrive::arrive(s, 0), b"A")?;
    let s = told(rt, calls::arrive::arrive(s, 1), b"A")?;
    let s = told(rt, choice::choose(s, &[4, 9]), b"G")?;
    let s = told(rt, calls::advance::advance(s, 1), b"R")?;
    let s = told(rt, choice::choose(s, &[2, 5]), b"G")?;
    let s = told(rt, calls::advance::advance(s, 2), b"R")?;
    let s = told(rt, choice::choose(s, &[3]), b"G")?;
    let s = told(rt, calls::advance::advance(s, 1), b"R")?;
    let s = told(rt, calls::finish::finish(s), b"F")?;
    told(rt, calls::arrive::arrive(s, 0), b"A")?;
    Ok(())
}

// A walk so far.
#[derive(Clone, Copy)]
pub struct Walk {
    pub session: Session,
    pub seed: u32,
    pub refused: u64,
    pub unsound: u64,
    pub sum: u64,
}

fn next(x: u32) -> u32 {
    x.wrapping_mul(1664525).wrapping_add(1013904223)
}

fn modulo(n: u64) -> u64
    ensures { result < 1000000007 }
{
    n % 1000000007
}

// One more answer in the counts.
fn counted(w: Walk, o: Outcome) -> Walk {
    let n = session::show(o.answer);
    let mut v = w;
    v.session = o.session;
    // Tested by the number, which the sum needs anyway.
    if n.number != 0 {
        v.refused = v.refused.saturating_add(1);
    }
    if n.number == 5 {
        v.unsound = v.unsound.saturating_add(1);
    }
    let a = modulo(n.number);
    let b = modulo(n.first);
    let c = modulo(n.second);
    v.sum = modulo(modulo(v.sum) * 31 + a * 7 + b * 3 + c);
    v
}

// An arrival, a choice, and its span or a part of it; every eighth time the job finishes early.
fn turn(w: Walk) -> Walk {
    let x = next(w.seed);
    let y = next(x);
    let z = next(y);
    let mut v = counted(
        w,
        calls::arrive::arrive(w.session, u64::from(x / 65536 % 16)),
    );
    v = counted(v, choice::choose(v.session, &[y / 65536, z / 65536]));
    let span = v.session.span;
    let step = if z / 65536 % 2 == 0 {
        span
    } else {
        span - span / 2
    };
    v = counted(v, calls::advance::advance(v.session, step));
    if y / 65536 % 8 == 0 {
        v = counted(v, calls::finish::finish(v.session));
    }
    v.seed = z;
    v
}

fn play(rt: &impl Print, words: &[u32], turns: u64) -> io::Result<()> {
    let mut w = Walk {
        session: fresh(words),
        seed: 1,
        refused: 0,
        unsound: 0,
        sum: 0,
    };
    for _ in 0..turns {
        w = turn(w);
    }
    put(rt, w.session.kind)?;
    put(rt, turns)?;
    put(rt, w.refused)?;
    put(rt, w.unsound)?;
    put(rt, w.session.clock)?;
    put(rt, w.sum)?;
    end(rt)
}

// 16 rows, loose.
const SIXTEEN: [u32; 48] = [
    1, 100, 100, 2, 100, 100, 3, 100, 100, 4, 100, 100, 1, 200, 150, 2, 200, 150, 3, 200, 150, 4,
    200, 150, 1, 300, 300, 1, 300, 300, 1, 300, 300, 1, 300, 300, 2, 400, 400, 2, 400, 400, 2, 400,
    400, 2, 400, 400,
];

// 16 rows, mixed: one brittle row, with a short deadline, among rows that use up most of the time.
const FULL: [u32; 48] = [
    1, 40, 16, 2, 40, 40, 2, 40, 40, 2, 40, 40, 2, 40, 40, 2, 40, 40, 2, 40, 40, 2, 40, 40, 2, 40,
    40, 2, 40, 40, 2, 40, 40, 2, 40, 40, 2, 40, 40, 2, 40, 40, 2, 40, 40, 2, 40, 40,
];

fn play_all(rt: &impl Print) -> io::Result<()> {
    listing(rt)?;
    play(rt, &[1, 1, 1], 20000)?;
    play(rt, &[1, 10, 10, 2, 20, 20, 2, 5, 5], 20000)?;
    play(rt, &[1, 5, 5, 3, 8, 8, 2, 9, 9, 4, 20, 20], 20000)?;
    let sixteen = SIXTEEN;
    play(rt, &sixteen, 20000)?;
    let full = FULL;
    play(rt, &full, 20000)
}

fn main(rt: HostRuntime) {
    // What cannot be written is lost.
    let _ = play_all(&rt);
}
