// Whether the demand of some tick exceeds it (docs/SPECIFICATION.md §3.1), by jumps down from the end of a range and not by a
// scan (the QPA test), and where the jumps are short by a sieve.
ghost use Rattle.std.specs.Prelude.{◌≤◌};
ghost use Rattle.table.specs.Rows.{tasks_of};
ghost use Rattle.table.specs.Overload.{Searched};

use super::demand::demand_at;
use super::drop::lower;
use super::fit::FitTable;
use super::sieve::lag_after;

// A tick and the demand there, which exceeds it.
#[derive(Clone, Copy)]
pub struct Found {
    pub at: u64,
    pub demand: u64,
}

// Such a tick of a range, if it has one, and how many times the demand was summed up to find it.
#[derive(Clone, Copy)]
pub struct Outcome {
    pub found: Option<Found>,
    pub sums: u64,
}

// Looks at the ticks above floor, up to end, from the end down. Internal: no caller looks past 1,000,000.
pub fn search(table: &FitTable, floor: u64, end: u64) -> Outcome
    requires { end ≤ 1000000 }
    ensures { Searched (tasks_of table.now.words.now) floor end result.found result.sums }
{
    let n = table.rows();
    let mut t = end;
    let mut sums: u64 = 0;
    let mut lag: u64 = 0;
    while floor < t {
        let h = demand_at(table, t);
        sums += 1;
        if t < h {
            let found = Found { at: t, demand: h };
            return Outcome {
                found: Some(found),
                sums,
            };
        }
        lag = lag_after(n, t - h, lag);
        t = lower(table, t, h, sums, lag);
    }
    Outcome { found: None, sums }
}
