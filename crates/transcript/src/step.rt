// One line after the table (docs/SPECIFICATION.md §8.4). Internal: public for `narration` and `response`, which
// go over the same lines.
ghost use Rattle.std.specs.Prelude.{◌≡◌, true, ◌+◌, ◌≤◌, ◌<◌, ◌^◌, length};
ghost use Rattle.session.specs.Sound.{sound};
ghost use Rattle.transcript.specs.Step.{letter_of, call_of, answer_text, step_of};
ghost use Rattle.transcript.specs.Moves.{passed_by};
ghost use Rattle.transcript.specs.Play.{Room, Ready, Told, Unread, Queued, Did, Aside, queue_of, words_in};

use lines::read::{Call, Line};
use lines::write::put_line;
use session::{Answer, Outcome, Session};

// What the lines so far have led to, besides the session.
#[derive(Clone, Copy)]
pub struct Play {
    // Of all words queued so far, those from place `from` up to place `to` wait.
    pub from: usize,
    pub to: usize,
    // The number of the next line.
    pub line: u64,
    // How many bytes are written.
    pub end: usize,
    // Whether output has ended. No Option in place of `end`: `response` goes on writing from there.
    pub over: bool,
}

// What a line leads to.
#[derive(Clone, Copy)]
pub struct Stepped {
    pub session: Session,
    pub play: Play,
}

pub fn letter(c: Call) -> u8
    ensures { result ≡ letter_of c }
{
    match c {
        Call::Arrive(_) => b'A',
        Call::Choose => b'G',
        Call::Advance(_) => b'R',
        Call::Finish => b'F',
    }
}

// `words` are those that wait. The session is sound, so no check is made.
pub fn call(s: Session, c: Call, words: &[u32]) -> Outcome
    requires { sound s ≡ true }
    ensures { result ≡ call_of s words.now c }
{
    match c {
        Call::Arrive(row) => calls::arrive::arrive_sound(s, u64::from(row)),
        Call::Choose => choice::choose_sound(s, words),
        Call::Advance(n) => calls::advance::advance_sound(s, u64::from(n)),
        Call::Finish => calls::finish::finish_sound(s),
    }
}

// What a call leads to that used so many words, and of which what is printed ends at `end`. Internal: its callers have the words from
// the call.
pub fn passed(p: Play, used: u64, end: usize) -> Play
    requires { (p.from + used ≤ p.to) × (p.line < 2 ^ 32) }
    ensures { result ≡ passed_by p used end }
{
    Play {
        from: p.from + (used as usize),
        line: p.line + 1,
        end,
        over: false,
        ..p
    }
}

// Prints the answer of a call that used so many words, with the clock after it.
pub fn tell(p: Play, letter: u8, clock: u64, answer: Answer, used: u64, out: &mut [u8]) -> Play
    requires { Room p out.old × (p.from + used ≤ p.to) }
    ensures { Told (answer_text clock letter answer) used p result out.old out.new }
{
    let n = session::show(answer);
    let end = put_line(out, p.end, clock, letter, n.number, n.first, n.second);
    passed(p, used, end)
}

// Prints that the line is unreadable; output ends.
fn refuse(p: Play, clock: u64, out: &mut [u8]) -> Play
    requires { Room p out.old }
    ensures { Unread clock p result out.old out.new }
{
    let end = put_line(out, p.end, clock, b'?', 13, p.line, 0);
    let mut q = p;
    q.end = end;
    q.over = true;
    q
}

// A word joins those that wait; where they are too many, the line counts as unreadable.
fn queue(p: Play, clock: u64, w: u32, words: &mut [u32], out: &mut [u8]) -> Play
    requires { Ready p words.old out.old × (p.to < length words.old) }
    ensures { Queued clock w p result words.old words.new out.old out.new }
{
    let from = p.from;
    let to = p.to;
    if to - from < 1024 {
        words[to] = w;
        let mut q = p;
        q.to = to + 1;
        q.line = p.line + 1;
        q.over = false;
        return q;
    }
    refuse(p, clock, out)
}

// A line that is no call: a word, or one that can't be read here. It has the clock and not the session, which would be copied.
pub fn aside(p: Play, clock: u64, line: Line, words: &mut [u32], out: &mut [u8]) -> Play
    requires { Ready p words.old out.old × (p.to + words_in line ≤ length words.old) }
    ensures { Aside clock line p result words.old words.new out.old out.new }
{
    match line {
        Line::Word(w) => queue(p, clock, w, words, out),
        Line::Call(_) => p,
        Line::Row { .. } | Line::Empty | Line::Unreadable => refuse(p, clock, out),
    }
}

// One line of any kind. The session is sound, and there is room for a line and for a word.
pub fn step(s: Session, p: Play, line: Line, words: &mut [u32], out: &mut [u8]) -> Stepped
    requires { (sound s ≡ true) × Ready p words.old out.old × (p.to + words_in line ≤ length words.old) }
    ensures { Did (words_in line) (step_of s (queue_of words.old p) p.line line) result.session p result.play words.old words.new out.old out.new }
{
    let Line::Call(c) = line else {
        let play = aside(p, s.clock, line, words, out);
        return Stepped { session: s, play };
    };
    let from = p.from;
    let to = p.to;
    let o = call(s, c, &words[from..to]);
    let answer = o.answer;
    let session = o.session;
    let play = tell(p, letter(c), session.clock, answer, o.used, out);
    Stepped { session, play }
}
