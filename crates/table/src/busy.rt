// The busy length (the synchronous busy period; docs/SPECIFICATION.md §2.4).
ghost use Rattle.std.specs.Prelude.{◌<◌};
ghost use Rattle.table.specs.Rows.{tasks_of};
ghost use Rattle.table.specs.Busy.{Settled};

use super::fit::FitTable;
use super::leap::further;
use super::request::requested;
use super::sieve::lag_after;

// The length, if there is one up to 1,000,000, and how many times the request was summed up to find it.
#[derive(Clone, Copy)]
pub struct Busy {
    pub length: Option<u64>,
    pub sums: u64,
}

// The least r ≥ 1 that equals the sum over all rows of C times (r divided by T, rounded up).
pub fn busy_length(table: &FitTable) -> Busy
    ensures { Settled (tasks_of table.now.words.now) result }
{
    let n = table.rows();
    let mut r: u64 = 1;
    let mut sums: u64 = 0;
    let mut lag: u64 = 0;
    let length = loop {
        let next = requested(table, r);
        sums += 1;
        if next == r {
            break Some(r);
        }
        lag = lag_after(n, next - r, lag);
        let far = further(table, r, next, sums, lag);
        if 1000000 < far {
            break None;
        }
        r = far;
    };
    Busy { length, sums }
}
