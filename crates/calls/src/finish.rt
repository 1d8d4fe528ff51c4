// The chosen job is over early (docs/SPECIFICATION.md §5.6).
ghost use Rattle.std.specs.Prelude.{◌≡◌, true, ◌+◌, ◌<◌, min};
ghost use Rattle.table.specs.Rows.{tasks_of, Fit};
ghost use Rattle.session.specs.Sound.{sound};
ghost use Rattle.session.specs.Brittle.{Marks};
ghost use Rattle.session.specs.Calls.{finished_of, finish_in, finish_of};
ghost use Rattle.calls.specs.Code.{gains_by, given_by, Ending};

use super::over_job;
use session::brittle::brittle_rows;
use session::sound::check_of;
use session::{Answer, Job, Outcome, Session, refuse};

// Whether j, whose row is brittle or not, gains what a job that is due at `due` leaves unused. The first test stands alone: tried in
// one `&&`, where `search` does not split a value that two branches join.
fn gains(j: Job, due: u64, brittle: bool) -> bool
    ensures { result ≡ gains_by j due brittle }
{
    if brittle {
        return false;
    }
    0 < j.left && due < j.due
}

// The lesser of b + n and most: a sum past 2 to the 64th is more than most too.
fn capped(b: u64, n: u64, most: u64) -> u64
    ensures { result ≡ min (b + n) most }
{
    b.saturating_add(n).min(most)
}

// Row i's job after the chosen job c, which is due at `due`, is over with n unused ticks.
fn given_job(rows: &[u32], i: usize, j: Job, c: u64, due: u64, n: u64, brittle: bool) -> Job
    requires { Fit (tasks_of rows.now) × (i < (tasks_of rows.now).rows) }
    ensures { result ≡ given_by (tasks_of rows.now) i j c due n brittle }
{
    if (i as u64) == c {
        return over_job(j);
    }
    if gains(j, due, brittle) {
        let k = table::rows::fit_row(rows, i);
        return Job {
            next: j.next,
            due: j.due,
            left: j.left,
            budget: capped(j.budget, n, k.deadline - k.run),
        };
    }
    j
}

// The chosen job is over, where no refusal holds. Only q is indexed, so that the record is not copied once more to read it.
fn finished(s: Session, brittle: [bool; 16]) -> Outcome
    requires { Ending s × Marks s brittle }
    ensures { result ≡ finished_of s }
{
    let mut q = s;
    let count = q.count as usize;
    let c = q.chosen;
    let words = q.words;
    let e = 3 * count;
    let rows = &words[..e];
    let k = q.jobs[c as usize];
    for i in 0..count {
        let j = q.jobs[i];
        q.jobs[i] = given_job(rows, i, j, c, k.due, k.left, brittle[i]);
    }
    q.chosen = 0;
    q.span = 0;
    Outcome {
        answer: Answer::Finished {
            row: c,
            unused: k.left,
        },
        used: 0,
        session: q,
    }
}

// `finish` of a sound session, by its brittle rows.
fn finish_by(s: Session, brittle: [bool; 16]) -> Outcome
    requires { (sound s ≡ true) × Marks s brittle }
    ensures { result ≡ finish_in s }
{
    let span = s.span;
    let c = s.chosen;
    if span == 0 {
        return refuse(s, Answer::NoChoice);
    }
    if c == Session::IDLE {
        return refuse(s, Answer::Idling);
    }
    finished(s, brittle)
}

// `finish` without its check, for callers who can prove that the session is sound.
pub fn finish_sound(s: Session) -> Outcome
    requires { sound s ≡ true }
    ensures { result ≡ finish_in s }
{
    let brittle = brittle_rows(s);
    finish_by(s, brittle)
}

pub fn finish(s: Session) -> Outcome
    ensures { result ≡ finish_of s }
{
    let Some(brittle) = check_of(s) else {
        return refuse(s, Answer::Unsound);
    };
    finish_by(s, brittle)
}
