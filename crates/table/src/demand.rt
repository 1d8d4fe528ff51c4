// What falls due by a tick, of one row and of all (the demand bound function; docs/SPECIFICATION.md §2.3).
ghost use Rattle.std.specs.Prelude.{◌≡◌, ◌*◌, ◌<◌, ◌≤◌};
ghost use Rattle.edf.specs.Jobs.{jobs_by_lem};
ghost use Rattle.edf.specs.Demand.{row_demand_lem, demand};
ghost use Rattle.table.specs.Rows.{tasks_of};
ghost use Rattle.bounded.specs.Within.{Within};
ghost use Rattle.table.specs.Inverse.{inverse_of_lem, Tame};

use super::fit::FitTable;
use super::inverse::{Prepared, quotient};

// 0 where t is below D, else (t − D) divided by T, rounded down, plus 1: in both cases (t + (T − D)) / T. Internal: its
// callers have D and T from a row that keeps its rule.
pub fn jobs_by(deadline: u64, period: u64, inverse: u64, t: u64) -> u64
    requires { (1 ≤ deadline) × (deadline ≤ period) × (period ≤ 1000000) × (inverse ≡ inverse_of_lem period) × (t ≤ 1000000) }
    ensures { Within 1000000 (jobs_by_lem deadline period t) result }
{
    quotient(t + (period - deadline), period, inverse)
}

// What is due by t of the row k. Internal: its callers have k from a row that keeps its rule.
pub fn owe(k: Prepared, t: u64) -> u64
    requires { Tame k × (t ≤ 1000000) }
    ensures { Within 1000000000000 (k.run * jobs_by_lem k.deadline k.period t) result }
{
    k.run * jobs_by(k.deadline, k.period, k.inverse, t)
}

// One row's part. Internal: its callers loop over the rows that there are.
pub fn row_demand(table: &FitTable, i: usize, t: u64) -> u64
    requires { (i < (tasks_of table.now.words.now).rows) × (t ≤ 1000000) }
    ensures { Within 1000000000000 (row_demand_lem (tasks_of table.now.words.now) t i) result }
{
    let k = table.prepare(i);
    owe(k, t)
}

// The sum, over the rows with D ≤ t, of C times ((t − D) divided by T, rounded down, plus 1). Internal: no caller
// looks past 1,000,000.
pub fn demand_at(table: &FitTable, t: u64) -> u64
    requires { t ≤ 1000000 }
    ensures { Within 16000000000000 (demand (tasks_of table.now.words.now) t) result }
{
    let n = table.rows();
    let mut sum = 0;
    for i in 0..n {
        sum += row_demand(table, i, t);
    }
    sum
}
