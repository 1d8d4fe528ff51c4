// The table of a seed, as numbers and as text (docs/WORKLOAD.md).
ghost use Rattle.std.specs.Prelude.{◌<◌, ◌≤◌, length};
ghost use Rattle.workload.specs.Rows.{RowIs, Tabled};

use lines::input::put_input;
use lines::read::Line;
use transcript::rows::{Rows, with_row};

// A row: C, T and D.
#[derive(Clone, Copy)]
pub struct Row {
    pub run: u32,
    pub period: u32,
    pub deadline: u32,
}

// Row i of n rows, by its digit.
fn row_by(n: usize, i: usize, q: u32) -> Row
    requires { (n ≤ 12) × (i ≤ 12) × (q < 8) }
    ensures { RowIs n i q result }
{
    let deadline = 4 * ((n + i) as u32) + q / 2 % 2;
    Row {
        run: 3 + q % 2,
        period: deadline + 2 * (q / 4),
        deadline,
    }
}

// Writes the table's lines to the start of `out`; `at` is the place past them. Internal: the caller has seen to the room for a trial.
pub fn put_rows(seed: u32, out: &mut [u8]) -> Rows
    requires { 780 ≤ length out.old }
    ensures { Tabled seed result out.old out.new }
{
    let n = 5 + ((seed % 8) as usize);
    let mut t = Rows {
        words: [0; 48],
        count: 0,
        at: 0,
    };
    let mut digits = seed / 8;
    for i in 0..n {
        let r = row_by(n, i, digits % 8);
        let line = Line::Row {
            run: r.run,
            period: r.period,
            deadline: r.deadline,
        };
        let end = put_input(out, t.at, line);
        t = with_row(t, r.run, r.period, r.deadline, end);
        digits /= 8;
    }
    t
}
