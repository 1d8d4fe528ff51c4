// The lines after the table, one after another, and then the jobs that still wait (docs/SPECIFICATION.md §14.4).
ghost use Rattle.std.specs.Prelude.{◌-◌};
ghost use Rattle.decimal.specs.Buffer.{Wrote};
ghost use Rattle.table.specs.Rows.{tasks_of};
ghost use Rattle.response.specs.Note.{Stepping, StepDid};
ghost use Rattle.response.specs.Walk.{room_of, Begun, owed_first};

use crate::job::{Analysis, put_pending};
use crate::notes::{Notes, note};
use crate::responses::responses;
use lines::read::{Line, next_line};
use session::Session;
use transcript::step::{Play, aside};

// One line of any kind. The session is sound, and there is room for a line and for a word.
fn step(
    analysis: &Analysis,
    session: Session,
    p: Play,
    counts: [u64; 16],
    line: Line,
    words: &mut [u32],
    out: &mut [u8],
) -> Notes
    requires { Stepping (tasks_of analysis.now.words.now) analysis.now.spans.now session p counts line words.old out.old }
    ensures { StepDid (tasks_of analysis.now.words.now) session p counts line result.session result.play result.counts words.old words.new out.old out.new }
{
    let Line::Call(c) = line else {
        let play = aside(p, session.clock, line, words, out);
        return Notes {
            session,
            play,
            counts,
        };
    };
    let from = p.from;
    let to = p.to;
    note(analysis, session, p, counts, c, &words[from..to], out)
}

// From place `start` of the text on. Each word takes four bytes of it, so that 16,384 places hold all words.
pub fn walk(
    text: &[u8],
    table: &[u32],
    start: usize,
    session: Session,
    first: Play,
    out: &mut [u8],
) -> usize
    requires { Begun text.now table.now start session first out.old }
    ensures { Wrote (room_of text.now - first.end) (owed_first text.now table.now start session first) out.old out.new first.end result }
{
    let spans = responses(table);
    let analysis = Analysis {
        words: table,
        spans: &spans,
    };
    let mut words = [0u32; 16384];
    let mut counts = [0u64; 16];
    let mut s = session;
    let mut p = first;
    let mut at = start;
    while at < text.len() {
        let n = next_line(text, at);
        let line = n.line;
        at = n.at;
        let d = step(&analysis, s, p, counts, line, &mut words, out);
        s = d.session;
        p = d.play;
        counts = d.counts;
        if p.over {
            return put_pending(&analysis, s, p, counts, out);
        }
    }
    put_pending(&analysis, s, p, counts, out)
}
