// What `planner` reads and writes, as one function from bytes to bytes (docs/SPECIFICATION.md §14.4).
#![tactic(auto)]

ghost use Rattle.std.specs.Prelude.{◌≡◌, ◌+◌, ◌-◌, ◌≤◌, length};
ghost use Rattle.decimal.specs.Buffer.{Wrote};
ghost use Rattle.lines.specs.Lines.{lines_of};
ghost use Rattle.table.specs.Verdict.{opinion_of};
ghost use Rattle.table.specs.Opinion.{Says};
ghost use Rattle.transcript.specs.Transcript.{input_limit};
ghost use Rattle.response.specs.Jobs.{items_text};
ghost use Rattle.response.specs.Plan.{besides_text, items_of, printed_of, room_for, Planned};
ghost use Rattle.response.specs.Walk.{room_of};
ghost use Rattle.response.specs.Entry.{Calls};

use table::{Judgement, Refusal};
use transcript::opening::{Judged, judge, started};

mod job;
mod notes;
mod responses;
mod walk;

// How many bytes of the input are read.
pub const INPUT: usize = 65536;

// A buffer of this length holds every output.
pub const LONGEST: usize = 4225308;

// How long a buffer has to be for n bytes of input. The numbers are those of this output alone.
pub fn room_for(n: usize) -> usize
    ensures { result ≡ room_for n }
{
    31004 + 64 * n.min(INPUT)
}

// What is printed of a table besides the opinion on it.
fn put_besides(
    words: &[u32],
    opinion: Result<Judgement, Refusal>,
    out: &mut [u8],
    at: usize,
) -> usize
    requires { Says opinion (opinion_of words.now) × (at + 27392 ≤ length out.old) }
    ensures { Wrote 27392 (besides_text words.now) out.old out.new at result }
{
    let Err(refusal) = opinion else {
        return planning::put_costs(words, out, at);
    };
    match refusal {
        Refusal::Overload { at: t, demand } => planning::put_cuts(words, t, demand, out, at),
        Refusal::Length(_) => at,
        Refusal::Row(_) => at,
        Refusal::Unsettled => at,
    }
}

// The calls of a text whose table is admitted, after what is printed of the table.
fn put_calls(text: &[u8], j: Judged, out: &mut [u8]) -> usize
    requires { Calls text.now j out.old }
    ensures { Wrote (room_of text.now - j.end) (items_text (items_of (lines_of text.now))) out.old out.new j.end result }
{
    let rows = j.rows;
    let words = rows.words;
    let e = 3 * rows.count;
    let t = started(j);
    let session = t.session;
    let play = t.play;
    walk::walk(text, &words[..e], t.at, session, play, out)
}

// A text that may be read whole.
fn print(text: &[u8], out: &mut [u8]) -> usize
    requires { (length text.now ≤ input_limit) × (room_of text.now ≤ length out.old) }
    ensures { Wrote (room_of text.now) (printed_of (lines_of text.now)) out.old out.new 0 result }
{
    let mut j = judge(text, out);
    let rows = j.rows;
    let words = rows.words;
    let e = 3 * rows.count;
    j.end = put_besides(&words[..e], j.opinion, out, j.end);
    if j.opinion.is_err() {
        return j.end;
    }
    put_calls(text, j, out)
}

// Writes what a planner wants to know of the first 65,536 bytes of the input to the start of `out`, and gives its length. A buffer
// shorter than `room_for` says is left as it is, and the answer is 0.
pub fn plan(input: &[u8], out: &mut [u8]) -> usize
    ensures { Planned input.now out.old out.new result }
{
    if out.len() < room_for(input.len()) {
        return 0;
    }
    let n = input.len().min(INPUT);
    print(&input[..n], out)
}
