// The lines about jobs, `E` and `P` (docs/SPECIFICATION.md §14.4). Internal: whoever calls these has seen to the room.
ghost use Rattle.std.specs.Prelude.{◌+◌, ◌-◌, ◌≤◌, ◌<◌, length};
ghost use Rattle.decimal.specs.Buffer.{Wrote};
ghost use Rattle.table.specs.Rows.{tasks_of};
ghost use Rattle.response.specs.Jobs.{line_by_lem, job_text};
ghost use Rattle.response.specs.Put.{Legible, LegibleRow, Finishing, pending_text, pendings_text};

use decimal::write::put_number;
use lines::write::put_head;
use session::Session;
use table::rows::{count, fit_row};
use transcript::step::Play;

// The admitted table, and the response bound of each row.
#[derive(Clone, Copy)]
pub struct Analysis<'a> {
    pub words: &'a [u32],
    pub spans: &'a [u64; 16],
}

// A job of row i, due at `due`, with these inversion ticks.
pub fn put_job(
    analysis: &Analysis,
    letter: u8,
    clock: u64,
    i: usize,
    due: u64,
    inversions: u64,
    out: &mut [u8],
    at: usize,
) -> usize
    requires { LegibleRow (tasks_of analysis.now.words.now) analysis.now.spans.now i due inversions × (at + 128 ≤ length out.old) }
    ensures { Wrote 128 (job_text letter (line_by_lem (tasks_of analysis.now.words.now) clock i (due - (tasks_of analysis.now.words.now).D i) inversions)) out.old out.new at result }
{
    let k = fit_row(analysis.words, i);
    let arrival = due - k.deadline;
    let bound = arrival + analysis.spans[i] + inversions;
    let e = put_head(out, at, clock, letter, 0, i as u64);
    let f = put_number(out, e, arrival, b'\t');
    let g = put_number(out, f, bound, b'\t');
    put_number(out, g, inversions, b'\n')
}

// The job of row i, if it still waits.
fn put_waiting(
    analysis: &Analysis,
    s: Session,
    counts: [u64; 16],
    i: usize,
    out: &mut [u8],
    at: usize,
) -> usize
    requires { Legible (tasks_of analysis.now.words.now) analysis.now.spans.now s counts × (i < (tasks_of analysis.now.words.now).rows) × (at + 128 ≤ length out.old) }
    ensures { Wrote 128 (pending_text (tasks_of analysis.now.words.now) s counts i) out.old out.new at result }
{
    let j = s.jobs[i];
    if j.left == 0 {
        return at;
    }
    put_job(analysis, b'P', s.clock, i, j.due, counts[i], out, at)
}

// All jobs that still wait.
pub fn put_pending(
    analysis: &Analysis,
    s: Session,
    p: Play,
    counts: [u64; 16],
    out: &mut [u8],
) -> usize
    requires { Finishing (tasks_of analysis.now.words.now) analysis.now.spans.now s p counts out.old }
    ensures { Wrote 2048 (pendings_text (tasks_of analysis.now.words.now) s counts) out.old out.new p.end result }
{
    let rows = count(analysis.words);
    let mut e = p.end;
    for i in 0..rows {
        e = put_waiting(analysis, s, counts, i, out, e);
    }
    e
}
