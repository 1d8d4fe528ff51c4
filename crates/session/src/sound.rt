// Whether a session is sound (docs/SPECIFICATION.md §5.2), decided for every content.
ghost use Rattle.std.specs.Prelude.{◌≡◌, true, ◌≤◌, ◌<◌};
ghost use Rattle.table.specs.Rows.{tasks_of, Fit};
ghost use Rattle.bounded.specs.All.{all_to};
ghost use Rattle.session.specs.Reading.{clock_end};
ghost use Rattle.session.specs.Sound.{affords, sound_job, sound_choice, sound};
ghost use Rattle.session.specs.Ahead.{ahead_by, DueOf};
ghost use Rattle.session.specs.Soundness.{Small, most_by, sound_by, sound_in, affords_by, Checked, Checks};

use super::{Job, Session};
use table::rows::Task;

// Whether j loses budget while c, which is due at `due` where it is a row, runs.
pub fn is_ahead(j: Job, c: u64, due: u64) -> bool
    ensures { result ≡ ahead_by j c due }
{
    0 < j.left && (c == Session::IDLE || j.due < due)
}

// Whether n is no more than j's budget, where j loses budget while c runs.
fn covers(j: Job, c: u64, due: u64, n: u64) -> bool
    ensures { result ≡ affords_by j c due n }
{
    !is_ahead(j, c, due) || n <= j.budget
}

// Whether each job that loses budget while c runs has at least n of it. Internal: its callers have tested the number of
// rows, and hand in c's deadline.
fn covered(s: Session, c: u64, due: u64, n: u64) -> bool
    requires { (s.count ≤ 16) × DueOf s c due }
    ensures { result ≡ all_to (affords s c n) s.count }
{
    let rows = s.count as usize;
    for i in 0..rows {
        if !covers(s.jobs[i], c, due, n) {
            return false;
        }
    }
    true
}

// The first tests stand alone: tried in one `&&`, where `search` does not split a value that two branches join.
fn choice_sound(s: Session) -> bool
    requires { s.count ≤ 16 }
    ensures { result ≡ sound_choice s }
{
    let span = s.span;
    let c = s.chosen;
    let count = s.count;
    if span == 0 {
        return true;
    }
    if Session::HORIZON < span {
        return false;
    }
    if c == Session::IDLE {
        return covered(s, c, 0, span);
    }
    if count <= c {
        return false;
    }
    let k = s.jobs[c as usize];
    if k.left < 1 {
        return false;
    }
    span <= k.left && covered(s, c, k.due, span)
}

// The most budget that a waiting job may have: D − C, and 0 where its row is brittle.
fn most_budget(brittle: bool, k: Task) -> u64
    requires { k.run ≤ k.deadline }
    ensures { result ≡ most_by brittle k }
{
    if brittle { 0 } else { k.deadline - k.run }
}

// A row's job, with its task, the clock and the most budget that it may have. Its first tests stand alone, as in `choice_sound`.
fn job_sound(j: Job, k: Task, clock: u64, most: u64) -> bool
    requires { Small k clock }
    ensures { result ≡ sound_by j k clock most }
{
    if clock + k.period < j.next {
        return false;
    }
    if j.left < 1 {
        return true;
    }
    if k.run < j.left {
        return false;
    }
    // 2 to the 54th: past it no deadline can fit, and below it no sum here wraps.
    if 18014398509481984 < j.due {
        return false;
    }
    if j.due + k.period != j.next + k.deadline {
        return false;
    }
    clock < j.due && j.budget <= most
}

// Row i of a table, which is brittle or not, with its job and the clock.
fn row_sound(rows: &[u32], i: usize, j: Job, brittle: bool, clock: u64) -> bool
    requires { Fit (tasks_of rows.now) × (i < (tasks_of rows.now).rows) × (clock ≤ clock_end) }
    ensures { result ≡ sound_in (tasks_of rows.now) i j brittle clock }
{
    let k = table::rows::fit_row(rows, i);
    let most = most_budget(brittle, k);
    job_sound(j, k, clock, most)
}

fn jobs_sound(s: Session, brittle: [bool; 16]) -> bool
    requires { Checked s brittle }
    ensures { result ≡ all_to (sound_job s) s.count }
{
    let n = s.count as usize;
    let clock = s.clock;
    let words = s.words;
    let e = 3 * n;
    let rows = &words[..e];
    for i in 0..n {
        if !row_sound(rows, i, s.jobs[i], brittle[i], clock) {
            return false;
        }
    }
    true
}

// Which rows of a session are brittle, so that a call need not work that out again; none where the session is not sound.
pub fn check_of(s: Session) -> Option<[bool; 16]>
    ensures { Checks s result }
{
    let count = s.count;
    if Session::ROWS < count {
        return None;
    }
    let words = s.words;
    let e = 3 * (count as usize);
    let k = table::kind::kind_of(&words[..e])?;
    if u64::from(k.kind) != s.kind {
        return None;
    }
    if Session::CLOCK_END < s.clock {
        return None;
    }
    if !jobs_sound(s, k.brittle) {
        return None;
    }
    if !choice_sound(s) {
        return None;
    }
    Some(k.brittle)
}

// Whether the session is one that a call takes.
pub fn is_sound(s: Session) -> bool
    ensures { result ≡ sound s }
{
    check_of(s).is_some()
}
