// The table: what is printed of it, and where the calls start (docs/SPECIFICATION.md §8.4). Internal: public for `narration` and
// `response`, whose output begins the same.
ghost use Rattle.std.specs.Prelude.{◌≡◌, ◌≤◌, length};
ghost use Rattle.transcript.specs.Opening.{Opened};
ghost use Rattle.transcript.specs.Opens.{Startable, started_by, Judges};

use crate::rows::{Rows, read_rows};
use crate::step::Play;
use session::Session;
use session::start::start_by;
use table::{Judgement, Refusal};

// What the lines up to a place of the text have led to.
#[derive(Clone, Copy)]
pub struct State {
    pub session: Session,
    pub play: Play,
    // The place of the next line.
    pub at: usize,
}

// The table of a text, the opinion on it, and how many bytes are written.
#[derive(Clone, Copy)]
pub struct Judged {
    pub rows: Rows,
    pub opinion: Result<Judgement, Refusal>,
    pub end: usize,
}

// Prints the opinion on the table. Internal: the caller has seen to the room.
pub fn judge(text: &[u8], out: &mut [u8]) -> Judged
    requires { 1478 ≤ length out.old }
    ensures { Judges text.now result out.old out.new }
{
    let rows = read_rows(text);
    let words = rows.words;
    let count = rows.count;
    let e = 3 * count;
    let opinion = table::opinion(&words[..e]);
    let end = report::put_opinion(out, 0, opinion, count);
    Judged { rows, opinion, end }
}

// Where the calls start. Output has ended where the table is refused. Internal: the opinion is that on the rows.
pub fn started(j: Judged) -> State
    requires { Startable j }
    ensures { result ≡ started_by j }
{
    let rows = j.rows;
    let words = rows.words;
    let count = rows.count;
    let e = 3 * count;
    let line = (count as u64) + 1;
    let session = start_by(Session::none(), &words[..e], j.opinion);
    let play = Play {
        from: 0,
        to: 0,
        line,
        end: j.end,
        over: j.opinion.is_err(),
    };
    State {
        session,
        play,
        at: rows.at,
    }
}

// Prints the opinion on the table, and starts it.
pub fn begin(text: &[u8], out: &mut [u8]) -> State
    requires { 1478 ≤ length out.old }
    ensures { Opened text.now result out.old out.new }
{
    started(judge(text, out))
}
