// Quotients by the rows' periods with one division for each row: a check of a table takes up to some hundred thousand
// quotients, and a division costs as much as several products.
ghost use Rattle.std.specs.Prelude.{◌≡◌, ◌/◌, ◌≤◌, ◌<◌};
ghost use Rattle.table.specs.Rows.{tasks_of, Fit};
ghost use Rattle.table.specs.Inverse.{inverse_of_lem, Inverses, Ready};

use super::rows::{count, fit_row};

// 2 to the 42nd divided by the period, rounded down, plus 1.
fn inverse_of(period: u64) -> u64
    requires { 1 ≤ period }
    ensures { result ≡ inverse_of_lem period }
{
    4398046511104 / period + 1
}

// Each row's, 0 past the last row. Internal: `opinion` tests the rows first.
pub fn inverses_of(words: &[u32]) -> [u64; 16]
    requires { Fit (tasks_of words.now) }
    ensures { Inverses (tasks_of words.now) result }
{
    let n = count(words);
    let mut inverses = [0u64; 16];
    for i in 0..n {
        let k = fit_row(words, i);
        inverses[i] = inverse_of(k.period);
    }
    inverses
}

// A row with its period's inverse. What bounds its numbers (`Tame`) stays a clause: a ghost field is no plainer, since specs/Inverse
// names this type and would have to be two files, and so would this one.
#[derive(Clone, Copy)]
pub struct Prepared {
    pub run: u64,
    pub period: u64,
    pub deadline: u64,
    pub inverse: u64,
}

// Row i without the other rows' inverses, at the cost of a division; with them there is `FitTable::prepare`. Internal: for callers
// who have a sound session.
pub fn prepare_alone(words: &[u32], i: usize) -> Prepared
    requires { Fit (tasks_of words.now) × (i < (tasks_of words.now).rows) }
    ensures { Ready (tasks_of words.now) i result }
{
    let k = fit_row(words, i);
    let inverse = inverse_of(k.period);
    Prepared {
        run: k.run,
        period: k.period,
        deadline: k.deadline,
        inverse,
    }
}

// x / period, rounded down. Internal: its callers have the period from a row that keeps its rule.
pub fn quotient(x: u64, period: u64, inverse: u64) -> u64
    requires { (x ≤ 2000000) × (1 ≤ period) × (period ≤ 1000000) × (inverse ≡ inverse_of_lem period) }
    ensures { result ≡ x / period }
{
    x * inverse / 4398046511104
}
