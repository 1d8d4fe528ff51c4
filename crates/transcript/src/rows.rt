// The table: the `T` lines before any other line, 16 at most (docs/SPECIFICATION.md §8.4). Internal: `Rows` and `with_row` are public for
// `workload`, which writes such lines.
ghost use Rattle.std.specs.Prelude.{◌≡◌, ◌<◌};
ghost use Rattle.transcript.specs.Table.{Stated, with_row};

use lines::read::{Line, next_line};
use table::rows::put_row;

// The rows, three numbers to each; how many there are; and the place of the line after them. An array with a length beside: no heap,
// fixed memory.
#[derive(Clone, Copy)]
pub struct Rows {
    pub words: [u32; 48],
    pub count: usize,
    pub at: usize,
}

// Internal: its callers have seen that there is room for a row.
pub fn with_row(t: Rows, run: u32, period: u32, deadline: u32, at: usize) -> Rows
    requires { t.count < 16 }
    ensures { result ≡ with_row t run period deadline at }
{
    let mut next = t;
    put_row(&mut next.words, t.count, run, period, deadline);
    next.count += 1;
    next.at = at;
    next
}

pub fn read_rows(text: &[u8]) -> Rows
    ensures { Stated text.now result }
{
    let mut t = Rows {
        words: [0; 48],
        count: 0,
        at: 0,
    };
    // No `for`: `with_row` counts the rows, and the count is a part of the result.
    while t.count < 16 {
        let at = t.at;
        if text.len() <= at {
            return t;
        }
        let n = next_line(text, at);
        let line = n.line;
        let Line::Row {
            run,
            period,
            deadline,
        } = line
        else {
            return t;
        };
        t = with_row(t, run, period, deadline, n.at);
    }
    t
}
