// An upper bound on every exceeded tick up to t, from the rows' utilisation (docs/SPECIFICATION.md §3.1): where the search
// would take many short steps, it goes on below it, or sieves the ticks.
ghost use Rattle.std.specs.Prelude.{◌≡◌, ◌+◌, ◌-◌, ◌*◌, ◌≤◌, ◌<◌, ltb};
ghost use Rattle.edf.specs.Jobs.{jobs_by_lem};
ghost use Rattle.edf.specs.Demand.{demand};
ghost use Rattle.table.specs.Rows.{tasks_of};
ghost use Rattle.bounded.specs.Within.{Within};
ghost use Rattle.table.specs.Inverse.{Tame};
ghost use Rattle.table.specs.Sieve.{Lag};
ghost use Rattle.table.specs.Drop.{rise_by, LightHolding, holding_by, Held, drop_by, Drop, Lower};

use super::demand::{jobs_by, owe};
use super::fit::FitTable;
use super::inverse::Prepared;
use super::sieve::sieve;

// Rows with a deadline after some tick, counted by their shares of time, in parts of 2 to the 32nd and rounded up, and by
// what they are ahead by, since their deadlines come before their periods' ends; and what is due of the others.
#[derive(Clone, Copy)]
struct Holding {
    rises: u64,
    leads: u64,
    held: u64,
}

// Whether a job of the row k falls due after b, up to t: the last one's deadline is (jobs by t) × T − (T − D).
fn due(k: Prepared, t: u64, b: u64) -> bool
    requires { Tame k × (t ≤ 1000000) × (b ≤ 1000000) }
    ensures { result ≡ ltb (b + (k.period - k.deadline)) (k.period * jobs_by_lem k.deadline k.period t) }
{
    b + (k.period - k.deadline) < k.period * jobs_by(k.deadline, k.period, k.inverse, t)
}

fn rise(k: Prepared) -> u64
    requires { Tame k }
    ensures { Within 4294968400 (rise_by k.run k.period) result }
{
    k.run * k.inverse / 1024 + 1
}

// What the share v brings between the row's deadline and its period's end.
fn lead(k: Prepared, v: u64) -> u64
    requires { Tame k × (v ≤ 4294968400) }
    ensures { Within 5000000000000000 (v * (k.period - k.deadline)) result }
{
    v * (k.period - k.deadline)
}

// h with one row more, at t: by its share if it has a deadline after b.
fn with_row(h: Holding, k: Prepared, t: u64, b: u64) -> Holding
    requires { LightHolding h × Tame k × (t ≤ 1000000) × (b ≤ 1000000) }
    ensures { result ≡ holding_by h k t b }
{
    if due(k, t, b) {
        let v = rise(k);
        return Holding {
            rises: h.rises + v,
            leads: h.leads + lead(k, v),
            held: h.held,
        };
    }
    Holding {
        rises: h.rises,
        leads: h.leads,
        held: h.held + owe(k, t),
    }
}

fn hold(table: &FitTable, t: u64, b: u64) -> Holding
    requires { (t ≤ 1000000) × (b ≤ 1000000) }
    ensures { Held (tasks_of table.now.words.now) t b (tasks_of table.now.words.now).rows result }
{
    let n = table.rows();
    let mut h = Holding {
        rises: 0,
        leads: 0,
        held: 0,
    };
    for i in 0..n {
        let k = table.prepare(i);
        h = with_row(h, k, t, b);
    }
    h
}

// What t ticks bring of the shares v above 1.
fn surplus(t: u64, v: u64) -> u64
    requires { (t ≤ 1000000) × (4294967296 ≤ v) × (v ≤ 68719494400) }
    ensures { Within 64424527104000000 (t * (v - 4294967296)) result }
{
    t * (v - 4294967296)
}

// The last tick, up to t, by which the work w and the lead e can exceed what the shares v leave.
fn reached(t: u64, v: u64, e: u64, w: u64) -> u64
    requires { (t ≤ 1000000) × (v ≤ 68719494400) × (e ≤ 80000000000000000) }
    ensures { result ≡ drop_by t v e w }
{
    if 1000001 < w {
        return t;
    }
    let m = e + 4294967296 * w;
    if v < 4294967296 {
        return m.saturating_sub(4294967296) / (4294967296 - v);
    }
    if m + surplus(t, v) < 4294967296 {
        return 0;
    }
    t
}

// The bound where a row is counted by its share if it has a deadline after b.
fn drop_at(table: &FitTable, t: u64, b: u64) -> u64
    requires { (t ≤ 1000000) × (b ≤ 1000000) }
    ensures { Drop (tasks_of table.now.words.now) t result }
{
    let h = hold(table, t, b);
    reached(t, h.rises, h.leads, h.held)
}

// The best of the first four bounds up to t, each for the rows with a deadline after the one before; u if none is lower.
// `leaps` goes the other way. One function for both would take the bound, the test and what each promises as parameters.
fn drops(table: &FitTable, t: u64, h: u64, u: u64) -> u64
    requires { (t ≤ 1000000) × (h ≤ t) × Lower (tasks_of table.now.words.now) t h u }
    ensures { Lower (tasks_of table.now.words.now) t h result }
{
    let mut at = u;
    for _ in 0..4 {
        let b = drop_at(table, t, at);
        if at <= b {
            return at;
        }
        at = b;
    }
    at
}

// The same by the sieve: the ticks back from t as long as the slack t − h lasts.
fn sift(table: &FitTable, t: u64, h: u64) -> u64
    requires { (256 ≤ t) × (t ≤ 1000000) × (h ≤ t) × (t - h < 256) × Within 16000000000000 (demand (tasks_of table.now.words.now) t) h }
    ensures { Lower (tasks_of table.now.words.now) t h result }
{
    let s = t - h;
    t - sieve(table, t, true, s)
}

// Where the search goes on below t, whose demand h is no more than t: below h. At the 16th sum and every 64th from there on,
// at the bound if that is lower. Where the steps lag behind the sieve at every 16th, and else by the sieve. Internal: its
// callers have h as the demand.
pub fn lower(table: &FitTable, t: u64, h: u64, sums: u64, lag: u64) -> u64
    requires { (t ≤ 1000000) × (h ≤ t) × Lag (t - h) lag × Within 16000000000000 (demand (tasks_of table.now.words.now) t) h }
    ensures { Lower (tasks_of table.now.words.now) t h result }
{
    let u = h.saturating_sub(1);
    if sums % 64 == 16 {
        return drops(table, t, h, u);
    }
    if lag < 256 {
        return u;
    }
    if sums % 16 == 0 {
        return drops(table, t, h, u);
    }
    if t < 256 {
        return u;
    }
    sift(table, t, h)
}
