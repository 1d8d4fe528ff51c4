// The lines of a trial after its table, one after another (docs/WORKLOAD.md).
ghost use Rattle.std.specs.Prelude.{◌≡◌, ◌+◌, ◌-◌, ◌*◌, ◌≤◌, length};
ghost use Rattle.decimal.specs.Buffer.{Wrote};
ghost use Rattle.lines.specs.declared.read.Line.TheVariants.{Word};
ghost use Rattle.lines.specs.Input.{input_text};
ghost use Rattle.session.specs.Start.{session_of};
ghost use Rattle.workload.specs.Table.{row_count, table_of};
ghost use Rattle.workload.specs.Trial.{trial_lines, call_lines, given_after_call};
ghost use Rattle.workload.specs.Play.{Ready, Aside, called_by};

use crate::line::line_by;
use lines::input::put_input;
use lines::read::{Call, Line};
use session::Session;

// What the lines so far have led to, besides the session.
#[derive(Clone, Copy)]
pub struct Progress {
    // Of all words queued so far, those from place `from` up to place `to` wait.
    pub from: usize,
    pub to: usize,
    // The last number.
    pub number: u32,
    // Whether a word was queued since the last `G`.
    pub given: bool,
}

fn still_given(c: Call, given: bool) -> bool
    ensures { result ≡ given_after_call given c }
{
    match c {
        Call::Arrive(_) => given,
        Call::Choose => false,
        Call::Advance(_) => given,
        Call::Finish => given,
    }
}

// A call that used so many words.
fn called(p: Progress, c: Call, used: u64) -> Progress
    requires { p.from + used ≤ p.to }
    ensures { result ≡ called_by p c used }
{
    Progress {
        from: p.from + (used as usize),
        given: still_given(c, p.given),
        ..p
    }
}

fn queued(p: Progress, w: u32, words: &mut [u32]) -> Progress
    requires { Ready p words.old }
    ensures { Aside (Word w) p result words.old words.new }
{
    let to = p.to;
    words[to] = w;
    let mut q = p;
    q.to = to + 1;
    q.number = w;
    q.given = true;
    q
}

// A line that is no call: a word. It has no session, which would be copied.
fn aside(p: Progress, line: Line, words: &mut [u32]) -> Progress
    requires { Ready p words.old }
    ensures { Aside line p result words.old words.new }
{
    match line {
        Line::Word(w) => queued(p, w, words),
        Line::Call(_) => p,
        Line::Row { .. } => p,
        Line::Empty => p,
        Line::Unreadable => p,
    }
}

// Writes the lines from place `start` of `out` on. Internal: the session is the fresh one of the seed's table, and the caller has seen
// to the room.
pub fn put_calls(seed: u32, session: Session, rows: usize, out: &mut [u8], start: usize) -> usize
    requires { (session ≡ session_of (table_of seed)) × (rows ≡ row_count seed) × (start + 65 * (trial_lines - row_count seed) ≤ length out.old) }
    ensures { Wrote (65 * (trial_lines - row_count seed)) (input_text (call_lines seed)) out.old out.new start result }
{
    let mut words = [0u32; 512];
    let mut s = session;
    let mut p = Progress {
        from: 0,
        to: 0,
        number: seed,
        given: false,
    };
    let mut end = start;
    for _ in rows..500 {
        let line = line_by(s, p.number, p.given);
        end = put_input(out, end, line);
        let Line::Call(c) = line else {
            p = aside(p, line, &mut words);
            continue;
        };
        let from = p.from;
        let to = p.to;
        let o = transcript::step::call(s, c, &words[from..to]);
        s = o.session;
        p = called(p, c, o.used);
    }
    end
}
