// The clock rises (docs/SPECIFICATION.md §5.5).
ghost use Rattle.std.specs.Prelude.{◌≡◌, true};
ghost use Rattle.bounded.specs.Within.{Within};
ghost use Rattle.session.specs.Sound.{sound};
ghost use Rattle.session.specs.Calls.{over_by, stepped_of, advance_in, advance_of};
ghost use Rattle.calls.specs.Code.{aged_by, place_of, kept_by, Step};

use super::over_job;
use session::sound::{is_ahead, is_sound};
use session::{Answer, Job, Outcome, Session, refuse};

// Row i's job after n ticks of the choice c, which is due at `due` where it is a row. In a sound session
// `saturating_sub` cuts off nothing.
fn aged_job(j: Job, i: u64, c: u64, due: u64, n: u64) -> Job
    ensures { result ≡ aged_by j i c due n }
{
    if i == c {
        if j.left == n {
            return over_job(j);
        }
        return Job {
            next: j.next,
            due: j.due,
            left: j.left.saturating_sub(n),
            budget: j.budget,
        };
    }
    if is_ahead(j, c, due) {
        return Job {
            next: j.next,
            due: j.due,
            left: j.left,
            budget: j.budget.saturating_sub(n),
        };
    }
    j
}

// The chosen row, and row 0 under idle, where what is read of it does not matter.
pub fn place_of(c: u64) -> usize
    ensures { Within 15 (place_of c) result }
{
    if c < 16 { c as usize } else { 0 }
}

// 1 if c is a row and its job, with `left` ticks remaining, is over after n ticks.
fn over_after(c: u64, left: u64, n: u64) -> u64
    ensures { result ≡ over_by c left n }
{
    if c == Session::IDLE {
        return 0;
    }
    u64::from(left == n)
}

// What is chosen after a step that leaves `left` ticks of c: nothing once none is left.
fn kept(c: u64, left: u64) -> u64
    ensures { result ≡ kept_by c left }
{
    if left == 0 { 0 } else { c }
}

// n ticks of the choice in force, where no refusal holds. Only q is indexed, so that the record is not copied once more to
// read it.
fn stepped(s: Session, n: u64) -> Outcome
    requires { Step s n }
    ensures { result ≡ stepped_of s n }
{
    let mut q = s;
    let rows = q.count as usize;
    let c = q.chosen;
    let left = q.span - n;
    let later = q.clock + n;
    let at = place_of(c);
    let k = q.jobs[at];
    for i in 0..rows {
        let j = q.jobs[i];
        q.jobs[i] = aged_job(j, i as u64, c, k.due, n);
    }
    let over = over_after(c, k.left, n);
    q.clock = later;
    q.chosen = kept(c, left);
    q.span = left;
    Outcome {
        answer: Answer::Advanced { left, over },
        used: 0,
        session: q,
    }
}

// `advance` without its check, for callers who can prove that the session is sound.
pub fn advance_sound(s: Session, n: u64) -> Outcome
    requires { sound s ≡ true }
    ensures { result ≡ advance_in s n }
{
    let span = s.span;
    if span == 0 {
        return refuse(s, Answer::NoChoice);
    }
    if n == 0 {
        return refuse(s, Answer::BadStep(span));
    }
    if span < n {
        return refuse(s, Answer::BadStep(span));
    }
    if Session::CLOCK_END < s.clock + n {
        return refuse(s, Answer::ClockEnd);
    }
    stepped(s, n)
}

pub fn advance(s: Session, n: u64) -> Outcome
    ensures { result ≡ advance_of s n }
{
    if is_sound(s) {
        return advance_sound(s, n);
    }
    refuse(s, Answer::Unsound)
}
