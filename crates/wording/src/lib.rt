// The text of an explanation: what it holds, and how it is written into a lent buffer (docs/EXPLANATIONS.md).
#![tactic(auto)]

ghost use Rattle.std.specs.Prelude.{◌≡◌};
ghost use Rattle.wording.specs.Explanation.{no_parts};

pub mod text;

// A waiting job: its row, deadline and budget, and whether it was a candidate.
#[derive(Clone, Copy)]
pub struct Held {
    pub row: u64,
    pub due: u64,
    pub budget: u64,
    pub candidate: bool,
}

// What set a span: the remaining ticks, a word, the lack of a word, or that nothing waits.
#[derive(Clone, Copy)]
pub enum Cause {
    Remaining,
    Word,
    NoWord,
    Nothing,
}

// What an explanation holds: the waiting jobs in order, in the first `count` places; in a mixed session the brittle deadline;
// the chosen row, 16 for idle; the deciding word or none; the span, and what set it. The places past `count` are all 0.
#[derive(Clone, Copy)]
pub struct Parts {
    // An array and its count: no heap, fixed memory.
    pub jobs: [Held; 16],
    pub count: usize,
    pub brittle: Option<u64>,
    // The C interface has 16 for idle.
    pub chosen: u64,
    pub decided: Option<u64>,
    pub span: u64,
    pub cause: Cause,
}

impl Parts {
    // No parts, where there is no explanation.
    pub fn none() -> Self
        ensures { result ≡ no_parts }
    {
        Self {
            jobs: [Held {
                row: 0,
                due: 0,
                budget: 0,
                candidate: false,
            }; 16],
            count: 0,
            brittle: None,
            chosen: 0,
            decided: None,
            span: 0,
            cause: Cause::Nothing,
        }
    }
}
