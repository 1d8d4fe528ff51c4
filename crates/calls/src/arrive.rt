// A job of a row arrives (docs/SPECIFICATION.md §5.3).
ghost use Rattle.std.specs.Prelude.{◌≡◌, true, not, ◌+◌, ◌≤◌, ◌<◌, ⊤};
ghost use Rattle.bounded.specs.Tests.{gate};
ghost use Rattle.bounded.specs.Within.{Within};
ghost use Rattle.edf.specs.Demand.{TaskSet};
ghost use Rattle.table.specs.Rows.{tasks_of, Fit};
ghost use Rattle.table.specs.Inverse.{Inverses, Ready, Tame};
ghost use Rattle.session.specs.Reading.{clock_end, tasks};
ghost use Rattle.session.specs.Sound.{sound};
ghost use Rattle.session.specs.Calls.{arrive_in, arrive_of};
ghost use Rattle.calls.specs.Code.{pending_by, load_by, looked_at_lem, budget_by, arriving_by, MarkOf, Marked};

use session::sound::check_of;
use session::{Answer, Job, Outcome, Session, refuse};
use table::budgets::value_of;
use table::demand::owe;
use table::fit::FitTable;
use table::inverse::{Prepared, inverses_of, prepare_alone};
use table::rows::{Task, fit_row};

// The remaining ticks of a job that is due by d; where none waits, that is 0.
fn pending(j: Job, d: u64) -> u64
    ensures { result ≡ pending_by j d }
{
    if d < j.due { 0 } else { j.left }
}

// The work of the row k, with its job j, that can still have to be done by x ticks after the clock: by the job, and by those still
// to come, the first of which can arrive now or where `next` is ahead.
fn row_load(k: Prepared, j: Job, clock: u64, x: u64) -> u64
    requires { Tame k × (j.left ≤ 1000000) × (clock ≤ clock_end) × (x ≤ 1000000) }
    ensures { Within 1000001000000 (load_by k j clock x) result }
{
    let t = x.saturating_sub(j.next.saturating_sub(clock));
    pending(j, clock + x) + owe(k, t)
}

// The same, and nothing of the row itself whose job arrives.
fn charge(k: Prepared, own: bool, j: Job, clock: u64, x: u64) -> u64
    requires { Tame k × (j.left ≤ 1000000) × (clock ≤ clock_end) × (x ≤ 1000000) }
    ensures { Within 1000001000000 (gate (not own) (load_by k j clock x)) result }
{
    if own { 0 } else { row_load(k, j, clock, x) }
}

// How many rows are looked at: none where the row of the new job is brittle.
fn looked_at(brittle: bool, rows: usize) -> usize
    ensures { Within rows (looked_at_lem brittle rows) result }
{
    if brittle { 0 } else { rows }
}

// The budget of a new job of the row k, where other rows ask for so much by its deadline. In a sound session that leaves some of
// D − C, or all: `saturating_sub` cuts off nothing (`BudgetWhole` in crates/guarantee/specs/Statement.antt).
fn budget(k: Task, brittle: bool, asked: u64) -> u64
    requires { (k.run ≤ 1000000) × (asked ≤ 16000016000000) }
    ensures { result ≡ budget_by k brittle asked }
{
    if brittle {
        return 0;
    }
    k.deadline.saturating_sub(k.run + asked)
}

// The job that arrives now in the row k.
fn arriving(k: Task, clock: u64, brittle: bool, asked: u64) -> Job
    requires { (k.run ≤ 1000000) × (k.deadline ≤ 1000000) × (k.period ≤ 1000000) × (clock ≤ clock_end) × (asked ≤ 16000016000000) }
    ensures { result ≡ arriving_by k clock brittle asked }
{
    let budget = budget(k, brittle, asked);
    Job {
        next: clock + k.period,
        due: clock + k.deadline,
        left: k.run,
        budget,
    }
}

// How a row of a table is prepared: by the inverses of all periods, which the rows share, or by a division of its own.
pub trait Prepares: Copy {
    // Whether it serves for the table.
    ghost serves: { Self → TaskSet → Type 0 };

    fn prepared(self, rows: &[u32], i: usize) -> Prepared
        requires { Fit (tasks_of rows.now) × serves self (tasks_of rows.now) × (i < (tasks_of rows.now).rows) }
        ensures { Ready (tasks_of rows.now) i result };
}

#[derive(Clone, Copy)]
pub struct Divisions;

impl Prepares for Divisions {
    ghost serves = { λ d τ. ⊤ };

    fn prepared(self, rows: &[u32], i: usize) -> Prepared {
        prepare_alone(rows, i)
    }
}

impl Prepares for &[u64; 16] {
    ghost serves = { λ v τ. Inverses τ v.now };

    fn prepared(self, rows: &[u32], i: usize) -> Prepared {
        let table = FitTable {
            words: rows,
            inverses: self,
        };
        table.prepare(i)
    }
}

// `arrive` of a sound session, by its brittle rows, of which only this one's mark is looked at. For callers who can prove that the
// session is sound, and that inverses which they hand in are its table's. One pass over the rows, with the
// inverses of its table's periods or with a division for each. The compiler makes a body for each of the two. Callers
// call this function directly: with one function more between, a call took one copy of the record more. Only q is indexed, so that
// the record is not copied once more to read it.
pub fn arrive_by<P: Prepares>(s: Session, by: P, brittle: [bool; 16], row: u64) -> Outcome
    requires { (sound s ≡ true) × P.serves by (tasks s) × MarkOf s brittle row }
    ensures { result ≡ arrive_in s row }
{
    let count = s.count;
    if count <= row {
        return refuse(s, Answer::NoRow(row));
    }
    let i = row as usize;
    let clock = s.clock;
    let mut q = s;
    let old = q.jobs[i];
    if clock < old.next {
        let next = old.next;
        return refuse(s, Answer::TooEarly { row, next });
    }
    let words = q.words;
    let e = 3 * (count as usize);
    let rows = &words[..e];
    let k = fit_row(rows, i);
    let n = looked_at(brittle[i], count as usize);
    let mut asked: u64 = 0;
    for j in 0..n {
        let p = by.prepared(rows, j);
        asked += charge(p, j == i, q.jobs[j], clock, k.deadline);
    }
    let job = arriving(k, clock, brittle[i], asked);
    q.jobs[i] = job;
    q.chosen = 0;
    q.span = 0;
    let due = job.due;
    Outcome {
        answer: Answer::Arrived { row, due },
        used: 0,
        session: q,
    }
}

// The inverses of the periods of a session's table, which all its arrivals can share: a division for each row. For callers who
// can prove that the session is sound: only of an admitted table is no period 0.
pub fn shared_inverses(s: Session) -> [u64; 16]
    requires { sound s ≡ true }
    ensures { Inverses (tasks s) result }
{
    let words = s.words;
    let e = 3 * (s.count as usize);
    inverses_of(&words[..e])
}

// Whether a row of the table is brittle, by its V.
fn brittle_row(s: Session, inverses: &[u64; 16], row: u64) -> bool
    requires { (sound s ≡ true) × Inverses (tasks s) inverses.now }
    ensures { Marked s row result }
{
    let count = s.count;
    if count <= row {
        return false;
    }
    let words = s.words;
    let e = 3 * (count as usize);
    let table = FitTable {
        words: &words[..e],
        inverses,
    };
    let v = value_of(&table, row as usize);
    v < 0
}

// `arrive_sound` in a mixed session: V of the row and its new job's budget share the inverses.
fn arrive_mixed(s: Session, row: u64) -> Outcome
    requires { sound s ≡ true }
    ensures { result ≡ arrive_in s row }
{
    let inverses = shared_inverses(s);
    let mark = brittle_row(s, &inverses, row);
    arrive_by(s, &inverses, [mark; 16], row)
}

// `arrive` without its check, for callers who can prove that the session is sound. In a loose session no row is brittle, and in a
// tight one each is.
pub fn arrive_sound(s: Session, row: u64) -> Outcome
    requires { sound s ≡ true }
    ensures { result ≡ arrive_in s row }
{
    let kind = s.kind;
    if kind == 3 {
        return arrive_mixed(s, row);
    }
    let tight = kind == 2;
    arrive_by(s, Divisions, [tight; 16], row)
}

pub fn arrive(s: Session, row: u64) -> Outcome
    ensures { result ≡ arrive_of s row }
{
    let Some(brittle) = check_of(s) else {
        return refuse(s, Answer::Unsound);
    };
    arrive_by(s, Divisions, brittle, row)
}
