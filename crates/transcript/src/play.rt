// The lines after the table, one after another (docs/SPECIFICATION.md §8.4).
ghost use Rattle.std.specs.Prelude.{◌-◌, []};
ghost use Rattle.decimal.specs.Buffer.{Wrote};
ghost use Rattle.transcript.specs.Plays.{room_of, Begun, owed};

use crate::step::{Play, aside, call, letter, tell};
use lines::read::{Line, next_line};
use session::Session;

// From place `start` of the text on. Each word takes four bytes of it, so that 16,384 places hold all words.
pub fn play(text: &[u8], start: usize, session: Session, first: Play, out: &mut [u8]) -> usize
    requires { Begun text.now start session first out.old }
    ensures { Wrote (room_of text.now - first.end) (owed text.now session first [] start) out.old out.new first.end result }
{
    let mut words = [0u32; 16384];
    let mut s = session;
    let mut p = first;
    let mut at = start;
    while at < text.len() {
        let n = next_line(text, at);
        let line = n.line;
        at = n.at;
        // The body of `step`, without its copies of the session.
        let Line::Call(c) = line else {
            p = aside(p, s.clock, line, &mut words, out);
            if p.over {
                return p.end;
            }
            continue;
        };
        let from = p.from;
        let to = p.to;
        let o = call(s, c, &words[from..to]);
        let answer = o.answer;
        s = o.session;
        p = tell(p, letter(c), s.clock, answer, o.used, out);
    }
    p.end
}
