// What the program `explained` writes (docs/EXPLANATIONS.md, the last section), a part at a time: each line of `shuffle`, and the
// text of the explanation after each choose that is accepted. Both functions are internal: their caller lends the buffers, and
// hands on the state and the words as the call before left them.
#![tactic(auto)]

ghost use Rattle.std.specs.Prelude.{◌≡◌, true, false, ◌+◌, ◌≤◌, length};
ghost use Rattle.decimal.specs.Buffer.{Wrote};
ghost use Rattle.session.specs.Sound.{sound};
ghost use Rattle.transcript.specs.Transcript.{input_limit};
ghost use Rattle.narration.specs.Narration.{explanation_after};
ghost use Rattle.narration.specs.Telling.{closed_at_lem, Going, LineTold, Continued, Began};

use explain::put_sound;
use lines::read::{Call, Line, next_line};
use session::Session;
use transcript::opening::State;
use transcript::step::step;

// How many bytes a line and an explanation have at most: 86 and 1,951.
const LONGEST: usize = 2037;

// The place past the explanation that follows a line. No choose of a sound session is refused but where a choice is in force.
fn put_explanation(out: &mut [u8], at: usize, s: Session, line: Line, words: &[u32]) -> usize
    requires { (sound s ≡ true) × (at + 1951 ≤ length out.old) }
    ensures { Wrote 1951 (explanation_after s words.now line) out.old out.new at result }
{
    let Line::Call(c) = line else {
        return at;
    };
    let Call::Choose = c else {
        return at;
    };
    if 0 < s.span {
        return at;
    }
    put_sound(out, at, s, words)
}

// All is told where no line is left of a text of so many bytes.
fn closed(t: State, length: usize) -> State
    ensures { result ≡ closed_at_lem t length }
{
    if t.at < length {
        return t;
    }
    let session = t.session;
    let mut play = t.play;
    play.over = true;
    State {
        session,
        play,
        at: t.at,
    }
}

// One line, and the explanation of the session and the words before it.
fn tell_line(text: &[u8], t: State, words: &mut [u32], out: &mut [u8]) -> State
    requires { (t.play.over ≡ false) × Going text.now t words.old × (t.play.end + 2037 ≤ length out.old) }
    ensures { LineTold text.now t result words.old words.new out.old out.new }
{
    let s = t.session;
    let p = t.play;
    let n = next_line(text, t.at);
    let line = n.line;
    let d = step(s, p, line, words, out);
    let session = d.session;
    let mut play = d.play;
    let from = p.from;
    let to = p.to;
    play.end = put_explanation(out, play.end, s, line, &words[from..to]);
    let next = State {
        session,
        play,
        at: n.at,
    };
    closed(next, text.len())
}

// Writes what is printed of the table to the start of `out`.
pub fn begin(text: &[u8], out: &mut [u8]) -> State
    requires { (length text.now ≤ input_limit) × (1478 ≤ length out.old) }
    ensures { Began text.now result out.new }
{
    closed(transcript::opening::begin(text, out), text.len())
}

// Writes as many lines, with their explanations, as surely fit to the start of `out`; at least one, unless all is told.
pub fn more(text: &[u8], state: State, words: &mut [u32], out: &mut [u8]) -> State
    requires { Going text.now state words.old × (2037 ≤ length out.old) }
    ensures { Continued text.now state result words.old words.new out.new }
{
    let session = state.session;
    let mut play = state.play;
    play.end = 0;
    let mut t = State {
        session,
        play,
        at: state.at,
    };
    while !t.play.over {
        if out.len() - t.play.end < LONGEST {
            return t;
        }
        t = tell_line(text, t, words, out);
    }
    t
}
