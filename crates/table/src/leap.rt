// A lower bound on every busy length, from the rows' utilisation (docs/SPECIFICATION.md §2.4): where the iteration would
// take many short steps, it goes on from here, or sieves the ticks.
ghost use Rattle.std.specs.Prelude.{◌≡◌, ◌-◌, ◌*◌, ◌≤◌, ◌<◌, ltb};
ghost use Rattle.bounded.specs.Quotient.{ceil_div};
ghost use Rattle.edf.specs.Demand.{request};
ghost use Rattle.table.specs.Rows.{tasks_of};
ghost use Rattle.bounded.specs.Within.{Within};
ghost use Rattle.table.specs.Inverse.{Tame};
ghost use Rattle.table.specs.Sieve.{Lag};
ghost use Rattle.table.specs.Leap.{share_by, LightFilling, filling_by, Filled, leap_by, Leap, Further};

use super::fit::FitTable;
use super::inverse::Prepared;
use super::request::{ask, ceiling};
use super::sieve::sieve;

// Rows that recur, counted by their shares of time, in parts of 2 to the 32nd and rounded down; and what the others ask for.
#[derive(Clone, Copy)]
struct Filling {
    shares: u64,
    asked: u64,
}

// Whether the row k asks for more between the stretch r and the stretch b: the periods that it has begun end below b.
fn recurs(k: Prepared, r: u64, b: u64) -> bool
    requires { Tame k × (r ≤ 1000000) }
    ensures { result ≡ ltb (k.period * ceil_div r k.period) b }
{
    k.period * ceiling(r, k.period, k.inverse) < b
}

fn share(k: Prepared) -> u64
    requires { Tame k }
    ensures { Within 1000000000000 (share_by k.run k.period) result }
{
    k.run * (k.inverse - 1) / 1024
}

// f with one row more, in the stretch r: by its share if it recurs before b.
fn with_row(f: Filling, k: Prepared, r: u64, b: u64) -> Filling
    requires { LightFilling f × Tame k × (r ≤ 1000000) }
    ensures { result ≡ filling_by f k r b }
{
    if recurs(k, r, b) {
        return Filling {
            shares: f.shares + share(k),
            asked: f.asked,
        };
    }
    Filling {
        shares: f.shares,
        asked: f.asked + ask(k, r),
    }
}

fn fill(table: &FitTable, r: u64, b: u64) -> Filling
    requires { r ≤ 1000000 }
    ensures { Filled (tasks_of table.now.words.now) r b (tasks_of table.now.words.now).rows result }
{
    let n = table.rows();
    let mut f = Filling {
        shares: 0,
        asked: 0,
    };
    for i in 0..n {
        let k = table.prepare(i);
        f = with_row(f, k, r, b);
    }
    f
}

// The stretch that work w fills beside the shares u.
fn filled(u: u64, w: u64) -> u64
    ensures { result ≡ leap_by u w }
{
    if 4294967296 < u {
        return 1000001;
    }
    if w == 0 {
        return 0;
    }
    if 4294967296 <= u {
        return 1000001;
    }
    let m = w.min(1000001);
    4294967296 * m / (4294967296 - u)
}

// The bound where a row is counted by its share if it recurs below b.
fn leap_at(table: &FitTable, r: u64, b: u64) -> u64
    requires { (1 ≤ r) × (r ≤ 1000000) }
    ensures { Leap (tasks_of table.now.words.now) r result }
{
    let f = fill(table, r, b);
    filled(f.shares, f.asked)
}

// The best of the first four bounds after r, each for the rows that recur below the one before; next if none is further.
fn leaps(table: &FitTable, r: u64, next: u64) -> u64
    requires { (1 ≤ r) × (r ≤ 1000000) }
    ensures { Further (tasks_of table.now.words.now) r next result }
{
    let mut at = next;
    for _ in 0..4 {
        let b = leap_at(table, r, at);
        if b <= at {
            return at;
        }
        at = b;
    }
    at
}

// The same by the sieve: the ticks from r on as long as the request stays above.
fn sift(table: &FitTable, r: u64, next: u64) -> u64
    requires { (r ≤ 1000000) × (r < next) × (next - r < 256) × Within 16000000000000 (request (tasks_of table.now.words.now) r) next }
    ensures { Further (tasks_of table.now.words.now) r next result }
{
    let s = next - r - 1;
    r + sieve(table, r, false, s)
}

// Where the iteration goes on after r, whose request is next: there. At the 16th sum and every 64th from there on, at the bound
// if that is further. Where the steps lag behind the sieve at every 16th, and else by the sieve. Internal: its callers have
// `next` as the request.
pub fn further(table: &FitTable, r: u64, next: u64, sums: u64, lag: u64) -> u64
    requires { (1 ≤ r) × (r ≤ 1000000) × (r < next) × Lag (next - r) lag × Within 16000000000000 (request (tasks_of table.now.words.now) r) next }
    ensures { Further (tasks_of table.now.words.now) r next result }
{
    if sums % 64 == 16 {
        return leaps(table, r, next);
    }
    if lag < 256 {
        return next;
    }
    if sums % 16 == 0 {
        return leaps(table, r, next);
    }
    sift(table, r, next)
}
