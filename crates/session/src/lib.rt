// The session: a value that goes in and comes back with each call (docs/SPECIFICATION.md §5).
#![tactic(auto)]

ghost use Rattle.std.specs.Prelude.{◌≡◌, min, length};
ghost use Rattle.session.specs.Calls.{refused, shown, three, Shows};
ghost use Rattle.session.specs.Start.{words_to, fresh_of, no_session};

pub mod brittle;
pub mod sound;
pub mod start;

// A row's earliest next arrival; and its waiting job's deadline, remaining ticks and budget left (the remaining inversion
// budget). No job of the row waits where `left` is 0: nothing looks at `due` and `budget` then, and a call leaves 0 there.
#[repr(C)]
#[derive(Clone, Copy)]
pub struct Job {
    pub next: u64,
    pub due: u64,
    pub left: u64,
    pub budget: u64,
}

// Numbers only, so that every content of its memory is a session. It is the C interface's: so `kind` is no enum, and `chosen` and
// `span` are no Option.
#[repr(C)]
#[derive(Clone, Copy)]
pub struct Session {
    pub clock: u64,
    // 1 loose, 2 tight, 3 mixed.
    pub kind: u64,
    // The rows, and three numbers to each: C, T, D.
    pub count: u64,
    pub words: [u32; 48],
    pub jobs: [Job; 16],
    // The choice in force: a row, or 16 for idle, and its ticks left. None is in force where `span` is 0; nothing looks at
    // `chosen` then, and a call leaves 0 there.
    pub chosen: u64,
    pub span: u64,
}

// What a call answers (§5.7; `show` gives the number and two values of each). Accepted and refused answers are one enum and no
// Result: a refused call leaves a session too (§5.8), every caller shows the answer by its number, and none stops at a refusal.
#[derive(Clone, Copy)]
pub enum Answer {
    Arrived { row: u64, due: u64 },
    Chosen { row: u64, span: u64 },
    Advanced { left: u64, over: u64 },
    Finished { row: u64, unused: u64 },
    // 5: the session is not sound.
    Unsound,
    // 6: the row is not in the table.
    NoRow(u64),
    // 7: the row's earliest next arrival is ahead.
    TooEarly { row: u64, next: u64 },
    // 8: a choice is in force; its ticks left.
    InForce(u64),
    // 9: no choice is in force.
    NoChoice,
    // 10: the step is 0 or above the ticks left, which are given.
    BadStep(u64),
    // 11: idle is running.
    Idling,
    // 12: the clock would pass its end.
    ClockEnd,
}

// What a reader of numbers sees of an answer: its number, 0 where the call is accepted, and two values.
#[repr(C)]
#[derive(Clone, Copy)]
pub struct Numbers {
    pub number: u64,
    pub first: u64,
    pub second: u64,
}

// A row whose job arrives, and the place for the answer: its number and two values, as `show` gives them.
#[repr(C)]
#[derive(Clone, Copy)]
pub struct Arrival {
    pub row: u64,
    pub number: u64,
    pub first: u64,
    pub second: u64,
}

fn triple(number: u64, first: u64, second: u64) -> Numbers
    ensures { Shows (three number first second) result }
{
    Numbers {
        number,
        first,
        second,
    }
}

pub fn show(answer: Answer) -> Numbers
    ensures { Shows (shown answer) result }
{
    match answer {
        Answer::Arrived { row, due } => triple(0, row, due),
        Answer::Chosen { row, span } => triple(0, row, span),
        Answer::Advanced { left, over } => triple(0, left, over),
        Answer::Finished { row, unused } => triple(0, row, unused),
        Answer::Unsound => triple(5, 0, 0),
        Answer::NoRow(row) => triple(6, row, 0),
        Answer::TooEarly { row, next } => triple(7, row, next),
        Answer::InForce(left) => triple(8, left, 0),
        Answer::NoChoice => triple(9, 0, 0),
        Answer::BadStep(left) => triple(10, left, 0),
        Answer::Idling => triple(11, 0, 0),
        Answer::ClockEnd => triple(12, Session::CLOCK_END, 0),
    }
}

// The answer, the session that the call leaves, and how many words a choice used. In this order a batch copies the session
// once less for each record.
#[derive(Clone, Copy)]
pub struct Outcome {
    pub answer: Answer,
    pub session: Session,
    pub used: u64,
}

// The numbers of a table in the places of a session.
fn copied(words: &[u32]) -> [u32; 48]
    ensures { result ≡ words_to words.now (min (length words.now) 48) }
{
    let n = words.len().min(48);
    let mut copy = [0u32; 48];
    copy[..n].copy_from_slice(&words[..n]);
    copy
}

impl Session {
    pub const IDLE: u64 = 16;

    pub const HORIZON: u64 = 1000000;

    pub const CLOCK_END: u64 = 9007199254740992;

    pub const ROWS: u64 = 16;

    // A session of the rows of a table of this kind as they start. `start` calls it for the tables that are admitted.
    pub fn fresh(words: &[u32], kind: u64) -> Self
        ensures { result ≡ fresh_of words.now kind }
    {
        Self {
            kind,
            count: (words.len() / 3) as u64,
            words: copied(words),
            ..Self::none()
        }
    }

    // No session: with no rows, every call on it answers 5.
    pub fn none() -> Self
        ensures { result ≡ no_session }
    {
        Self {
            clock: 0,
            kind: 0,
            count: 0,
            words: [0; 48],
            jobs: [Job {
                next: 0,
                due: 0,
                left: 0,
                budget: 0,
            }; 16],
            chosen: 0,
            span: 0,
        }
    }
}

// A refused call: the same session, and no word used.
pub fn refuse(s: Session, answer: Answer) -> Outcome
    ensures { result ≡ refused s answer }
{
    Outcome {
        answer,
        used: 0,
        session: s,
    }
}
