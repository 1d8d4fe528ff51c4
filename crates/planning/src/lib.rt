// What one tick more in C of a row costs, and how far C of a row must fall where a table is overloaded (docs/SPECIFICATION.md §14.2, §14.3):
// the lines `S` and `L` of `planner`. Internal: whoever calls these has asked for the opinion, which tests the rows, and has seen to the room.
#![tactic(auto)]

ghost use Rattle.std.specs.Prelude.{◌≡◌, ◌+◌, ◌≤◌, ◌<◌, length};
ghost use Rattle.decimal.specs.Buffer.{Wrote};
ghost use Rattle.edf.specs.Demand.{demand};
ghost use Rattle.table.specs.Rows.{tasks_of, Fit};
ghost use Rattle.planning.specs.Planning.{cost_of, cut_of, cost_text, costs_of_row, costs_text, cuts_text};

use decimal::write::put_number;
use lines::write::{put_head, put_line};
use table::rows::{count, fit_row};

// How much V of row i falls by one tick more in C of row j. Internal: its callers have tested the rows.
pub fn cost(words: &[u32], i: usize, j: usize) -> u64
    requires { Fit (tasks_of words.now) × (i < (tasks_of words.now).rows) × (j < (tasks_of words.now).rows) }
    ensures { result ≡ cost_of (tasks_of words.now) i j }
{
    if i == j {
        return 1;
    }
    let k = fit_row(words, i);
    let other = fit_row(words, j);
    k.deadline.div_ceil(other.period)
}

// A line `S`, if C of row j can rise.
fn put_cost(words: &[u32], i: usize, j: usize, out: &mut [u8], at: usize) -> usize
    requires { Fit (tasks_of words.now) × (i < (tasks_of words.now).rows) × (j < (tasks_of words.now).rows) × (at + 107 ≤ length out.old) }
    ensures { Wrote 107 (cost_text (tasks_of words.now) i j) out.old out.new at result }
{
    let k = fit_row(words, j);
    if k.run < k.deadline {
        let c = cost(words, i, j);
        let e = put_head(out, at, 0, b'S', 0, i as u64);
        let f = put_number(out, e, j as u64, b'\t');
        return put_number(out, f, c, b'\n');
    }
    at
}

// Those about V of row i.
fn put_row_costs(words: &[u32], i: usize, out: &mut [u8], at: usize) -> usize
    requires { Fit (tasks_of words.now) × (i < (tasks_of words.now).rows) × (at + 1712 ≤ length out.old) }
    ensures { Wrote 1712 (costs_of_row (tasks_of words.now) i) out.old out.new at result }
{
    let rows = count(words);
    let mut e = at;
    for j in 0..rows {
        e = put_cost(words, i, j, out, e);
    }
    e
}

// All lines `S`. Internal: the caller has tested the rows, and has seen to the room.
pub fn put_costs(words: &[u32], out: &mut [u8], at: usize) -> usize
    requires { Fit (tasks_of words.now) × (at + 27392 ≤ length out.old) }
    ensures { Wrote 27392 (costs_text (tasks_of words.now)) out.old out.new at result }
{
    let rows = count(words);
    let mut e = at;
    for i in 0..rows {
        e = put_row_costs(words, i, out, e);
    }
    e
}

// How far C of row i must fall, alone, for the demand at t to be t or less, where it is greater by `excess`; 0 if it can't.
// No Option: 0 is the value that is printed (docs/SPECIFICATION.md §14.3).
fn cut(words: &[u32], t: u64, excess: u64, i: usize) -> u64
    requires { Fit (tasks_of words.now) × (i < (tasks_of words.now).rows) × (1 ≤ excess) × (t + excess ≡ demand (tasks_of words.now) t) }
    ensures { result ≡ cut_of (tasks_of words.now) t i }
{
    let k = fit_row(words, i);
    if t < k.deadline {
        return 0;
    }
    let jobs = (t - k.deadline) / k.period + 1;
    let fall = excess.div_ceil(jobs);
    if fall < k.run {
        return fall;
    }
    0
}

// The lines `L` of a table that is refused with 3, t and d being the values of the refusal. Internal: the caller has them from the
// opinion, and has seen to the room.
pub fn put_cuts(words: &[u32], t: u64, d: u64, out: &mut [u8], at: usize) -> usize
    requires { Fit (tasks_of words.now) × (t < d) × (d ≡ demand (tasks_of words.now) t) × (at + 1376 ≤ length out.old) }
    ensures { Wrote 1376 (cuts_text (tasks_of words.now) t) out.old out.new at result }
{
    let rows = count(words);
    let excess = d - t;
    let mut e = at;
    for i in 0..rows {
        let k = cut(words, t, excess, i);
        e = put_line(out, e, 0, b'L', 0, i as u64, k);
    }
    e
}
