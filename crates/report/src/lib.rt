// What is printed of an opinion: the line `M` and, for each row of an admitted table, a line `B` (docs/SPECIFICATION.md §8.3).
#![tactic(auto)]

ghost use Rattle.std.specs.Prelude.{◌≡◌, [], ◌∷◌, ◌++◌, ◌+◌, ◌*◌, ◌≤◌, length};
ghost use Rattle.decimal.specs.Buffer.{Wrote};
ghost use Rattle.table.specs.Opinion.{shown_of};
ghost use Rattle.report.specs.Text.{signed_text, budget_text, budgets_text};
ghost use Rattle.report.specs.Put.{Reported};

use decimal::write::{put_byte, put_number};
use lines::write::{put_head, put_line};
use table::{Judgement, Refusal};

// A number with its sign, and a newline.
fn put_signed(out: &mut [u8], at: usize, v: i64) -> usize
    requires { at + 22 ≤ length out.old }
    ensures { Wrote 22 (signed_text v ++ 10 ∷ []) out.old out.new at result }
{
    if v < 0 {
        let e = put_byte(out, at, b'-');
        return put_number(out, e, v.unsigned_abs(), b'\n');
    }
    put_number(out, at, v.unsigned_abs(), b'\n')
}

// A row and its V.
fn put_budget(out: &mut [u8], at: usize, i: usize, v: i64) -> usize
    requires { at + 87 ≤ length out.old }
    ensures { Wrote 87 (budget_text i v) out.old out.new at result }
{
    let e = put_head(out, at, 0, b'B', 0, i as u64);
    put_signed(out, e, v)
}

fn put_budgets(out: &mut [u8], at: usize, values: [i64; 16], rows: usize) -> usize
    requires { (rows ≤ 16) × (at + 1392 ≤ length out.old) }
    ensures { Wrote (87 * rows) (budgets_text values rows) out.old out.new at result }
{
    let mut e = at;
    for (i, &v) in values[..rows].iter().enumerate() {
        e = put_budget(out, e, i, v);
    }
    e
}

// `rows` is the number of rows of an admitted table. Internal: the caller has seen to the room for the longest.
pub fn put_opinion(
    out: &mut [u8],
    at: usize,
    opinion: Result<Judgement, Refusal>,
    rows: usize,
) -> usize
    requires { (rows ≤ 16) × (at + 1478 ≤ length out.old) × ((shown_of opinion).number ≡ 0 → (shown_of opinion).second ≡ rows) }
    ensures { Reported (shown_of opinion) rows out.old out.new at result }
{
    let n = table::shown(opinion);
    let e = put_line(out, at, 0, b'M', n.number, n.first, n.second);
    match opinion {
        Ok(j) => put_budgets(out, e, j.budgets, rows),
        Err(_) => e,
    }
}
