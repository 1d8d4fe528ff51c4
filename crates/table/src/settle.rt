// Whether there is a busy length up to 1,000,000, without finding it (docs/SPECIFICATION.md §2.4): there is one exactly if
// some stretch up to there is no shorter than its request.
ghost use Rattle.std.specs.Prelude.{◌≤◌};
ghost use Rattle.table.specs.Rows.{tasks_of};
ghost use Rattle.table.specs.Settle.{Climbed, Settles};

use super::fit::FitTable;
use super::leap::further;
use super::request::requested;
use super::sieve::lag_after;

// The least such stretch from `from` to `end`, if there is one.
fn climb(table: &FitTable, from: u64, end: u64) -> Option<u64>
    requires { (1 ≤ from) × (end ≤ 1000000) }
    ensures { Climbed (tasks_of table.now.words.now) from end result }
{
    let n = table.rows();
    let mut r = from;
    let mut sums: u64 = 0;
    let mut lag: u64 = 0;
    while r <= end {
        let next = requested(table, r);
        sums += 1;
        if next <= r {
            return Some(r);
        }
        lag = lag_after(n, next - r, lag);
        r = further(table, r, next, sums, lag);
    }
    None
}

// The least of r / 9, r / 8, .., r / 2 that is such a stretch; r if none is. Where the utilisation is near 1, r is often a
// multiple of the busy length.
fn part_of(table: &FitTable, r: u64) -> u64
    requires { (9 ≤ r) × (r ≤ 1000000) × Settles (tasks_of table.now.words.now) (Some r) }
    ensures { Settles (tasks_of table.now.words.now) (Some result) }
{
    for m in (2..10).rev() {
        let q = r / m;
        if requested(table, q) <= q {
            return q;
        }
    }
    r
}

// Some such stretch up to 1,000,000, if there is one. The least one is looked for up to 100,000, since the search for an
// overload then has the less to do. Past that the last ones are found soonest: of each there are multiples.
pub fn settling(table: &FitTable) -> Option<u64>
    ensures { Settles (tasks_of table.now.words.now) result }
{
    if let Some(r) = climb(table, 1, 100000) {
        return Some(r);
    }
    // Counted by hand: `(150000..1000001).rev().step_by(50000)` is no plainer.
    let mut end = 1000000;
    while 100000 < end {
        if let Some(r) = climb(table, end - 49999, end) {
            return Some(part_of(table, r));
        }
        end -= 50000;
    }
    None
}
