// The inversion ticks of each row's waiting job, call by call, and the line of a job that a call ends (docs/SPECIFICATION.md §14.1, §14.4).
ghost use Rattle.std.specs.Prelude.{◌≡◌, ◌+◌, ◌≤◌, length};
ghost use Rattle.decimal.specs.Buffer.{Wrote};
ghost use Rattle.table.specs.Rows.{tasks_of};
ghost use Rattle.response.specs.Watch.{aged};
ghost use Rattle.response.specs.Put.{Legible};
ghost use Rattle.response.specs.Note.{Ageing, Tallying, tally_by, ends_by, end_text, Ending, Calling, NoteDid};

use crate::job::{Analysis, put_job};
use calls::advance::place_of;
use lines::read::Call;
use session::Session;
use session::sound::is_ahead;
use transcript::step::{Play, call, passed};

// What the lines so far have led to: the session, the words and the text, and of each row the inversion ticks of its waiting job.
#[derive(Clone, Copy)]
pub struct Notes {
    pub session: Session,
    pub play: Play,
    pub counts: [u64; 16],
}

// After n ticks of the choice in force in s.
fn aged(s: Session, counts: [u64; 16], n: u64) -> [u64; 16]
    requires { Ageing s counts n }
    ensures { result ≡ aged s counts n }
{
    let rows = s.count as usize;
    let c = s.chosen;
    let at = place_of(c);
    let k = s.jobs[at];
    let mut later = counts;
    for i in 0..rows {
        if is_ahead(s.jobs[i], c, k.due) {
            later[i] += n;
        }
    }
    later
}

// After a call on s whose answer has this number.
fn tally(s: Session, c: Call, number: u64, counts: [u64; 16]) -> [u64; 16]
    requires { Tallying s c number counts }
    ensures { result ≡ tally_by s c number counts }
{
    if number != 0 {
        return counts;
    }
    match c {
        Call::Arrive(row) => {
            let mut later = counts;
            later[row as usize] = 0;
            later
        }
        Call::Choose => counts,
        Call::Advance(n) => aged(s, counts, u64::from(n)),
        Call::Finish => counts,
    }
}

// Whether a call whose answer has this number and this second value ends a job.
fn ends(c: Call, number: u64, second: u64) -> bool
    ensures { result ≡ ends_by c number second }
{
    if number != 0 {
        return false;
    }
    match c {
        Call::Arrive(_) => false,
        Call::Choose => false,
        Call::Advance(_) => second == 1,
        Call::Finish => true,
    }
}

// The line of the job that a call on s ends, if it does; the clock is the one after the call.
fn put_end(
    analysis: &Analysis,
    s: Session,
    over: bool,
    clock: u64,
    counts: [u64; 16],
    out: &mut [u8],
    at: usize,
) -> usize
    requires { Legible (tasks_of analysis.now.words.now) analysis.now.spans.now s counts × Ending (tasks_of analysis.now.words.now) s over × (at + 128 ≤ length out.old) }
    ensures { Wrote 128 (end_text (tasks_of analysis.now.words.now) s over clock counts) out.old out.new at result }
{
    if over {
        let i = s.chosen as usize;
        let j = s.jobs[i];
        return put_job(analysis, b'E', clock, i, j.due, counts[i], out, at);
    }
    at
}

// One call. The session is sound, and there is room for a line.
pub fn note(
    analysis: &Analysis,
    s: Session,
    p: Play,
    counts: [u64; 16],
    c: Call,
    words: &[u32],
    out: &mut [u8],
) -> Notes
    requires { Calling (tasks_of analysis.now.words.now) analysis.now.spans.now s counts c words.now p out.old }
    ensures { NoteDid (tasks_of analysis.now.words.now) s p counts c words.now result.session result.play result.counts out.old out.new }
{
    let o = call(s, c, words);
    let answer = o.answer;
    let session = o.session;
    let n = session::show(answer);
    let over = ends(c, n.number, n.second);
    let end = put_end(analysis, s, over, session.clock, counts, out, p.end);
    Notes {
        session,
        play: passed(p, o.used, end),
        counts: tally(s, c, n.number, counts),
    }
}
