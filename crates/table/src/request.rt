// What arrives in a stretch of time, of one row and of all (the request bound function; docs/SPECIFICATION.md §2.4).
ghost use Rattle.std.specs.Prelude.{◌≡◌, ◌*◌, ◌<◌, ◌≤◌};
ghost use Rattle.bounded.specs.Quotient.{ceil_div};
ghost use Rattle.edf.specs.Demand.{row_request_lem, request};
ghost use Rattle.table.specs.Rows.{tasks_of};
ghost use Rattle.bounded.specs.Within.{Within};
ghost use Rattle.table.specs.Inverse.{inverse_of_lem, Tame};

use super::fit::FitTable;
use super::inverse::{Prepared, quotient};

// a / b, rounded up. Internal: its callers have b from a row that keeps its rule.
pub fn ceiling(a: u64, b: u64, inverse: u64) -> u64
    requires { (a ≤ 1000000) × (1 ≤ b) × (b ≤ 1000000) × (inverse ≡ inverse_of_lem b) }
    ensures { result ≡ ceil_div a b }
{
    quotient(a + (b - 1), b, inverse)
}

// What the row k asks for in the stretch x. Internal: its callers have k from a row that keeps its rule.
pub fn ask(k: Prepared, x: u64) -> u64
    requires { Tame k × (x ≤ 1000000) }
    ensures { Within 1000000000000 (k.run * ceil_div x k.period) result }
{
    k.run * ceiling(x, k.period, k.inverse)
}

// One row's part. Internal: its callers loop over the rows that there are.
pub fn row_request(table: &FitTable, i: usize, x: u64) -> u64
    requires { (i < (tasks_of table.now.words.now).rows) × (x ≤ 1000000) }
    ensures { Within 1000000000000 (row_request_lem (tasks_of table.now.words.now) x i) result }
{
    let k = table.prepare(i);
    ask(k, x)
}

// The sum over all rows of C times (x divided by T, rounded up). Internal: no caller looks past 1,000,000.
pub fn requested(table: &FitTable, x: u64) -> u64
    requires { x ≤ 1000000 }
    ensures { Within 16000000000000 (request (tasks_of table.now.words.now) x) result }
{
    let n = table.rows();
    let mut sum = 0;
    for i in 0..n {
        sum += row_request(table, i, x);
    }
    sum
}
