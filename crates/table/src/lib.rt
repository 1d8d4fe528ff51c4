// Task tables: a lent slice of numbers, three to a row (docs/SPECIFICATION.md §2), and the opinion on it (§3).
#![tactic(auto)]

ghost use Rattle.std.specs.Prelude.{◌≡◌, min};
ghost use Rattle.table.specs.Rows.{tasks_of, Fit};
ghost use Rattle.table.specs.Busy.{or_past};
ghost use Rattle.table.specs.Verdict.{bad_length, judged_of, opinion_of};
ghost use Rattle.table.specs.Opinion.{Shows, shown_of};

pub mod budgets;
pub mod busy;
pub mod demand;
mod drop;
pub mod first;
pub mod fit;
pub mod inverse;
pub mod kind;
mod leap;
pub mod overload;
mod request;
pub mod rows;
mod settle;
mod sieve;

use first::{Counted, first};
use fit::FitTable;
use kind::Kind;

// The opinion on an admitted table: its kind, how many rows it has, and V of each, 0 past the last row.
#[derive(Clone, Copy)]
pub struct Judgement {
    pub kind: Kind,
    pub rows: usize,
    pub budgets: [i64; 16],
}

// Why a table is refused (docs/SPECIFICATION.md §3; `shown_of` gives the numbers).
#[derive(Clone, Copy)]
pub enum Refusal {
    // The slice's length, which no table has.
    Length(usize),
    // The first row that breaks its rule.
    Row(usize),
    // The first tick whose demand exceeds it, and that demand.
    Overload { at: u64, demand: u64 },
    // No busy length up to 1,000,000.
    Unsettled,
}

// What a reader of numbers sees of an opinion, but for V: its number, 0 where the table is admitted, and two values.
// `session::Numbers` has the same fields and stays apart: it is the C interface.
#[derive(Clone, Copy)]
pub struct Numbers {
    pub number: u64,
    pub first: u64,
    pub second: u64,
}

pub fn shown(opinion: Result<Judgement, Refusal>) -> Numbers
    ensures { Shows opinion result }
{
    let (number, first, second) = match opinion {
        Ok(j) => (0, u64::from(j.kind), j.rows as u64),
        Err(Refusal::Length(n)) => (1, n as u64, 0),
        Err(Refusal::Row(i)) => (2, i as u64, 0),
        Err(Refusal::Overload { at, demand }) => (3, at, demand),
        Err(Refusal::Unsettled) => (4, 1000000, 0),
    };
    Numbers {
        number,
        first,
        second,
    }
}

// Whether no table is n numbers long: 0, above 48, or no multiple of 3.
fn ill_sized(n: usize) -> bool
    ensures { result ≡ bad_length n }
{
    n == 0 || 48 < n || n % 3 != 0
}

// The end of the compared range: the busy length, or 1,000,000 if that is less or there is none.
pub fn compared(busy: Option<u64>) -> u64
    ensures { result ≡ min (or_past busy) 1000000 }
{
    match busy {
        Some(r) => r.min(1000000),
        None => 1000000,
    }
}

// The opinion on rows that keep their rule.
fn judge(words: &[u32]) -> Result<Judgement, Refusal>
    requires { Fit (tasks_of words.now) }
    ensures { shown_of result ≡ judged_of (tasks_of words.now) }
{
    let inverses = inverse::inverses_of(words);
    let table = FitTable {
        words,
        inverses: &inverses,
    };
    let rows = table.rows();
    let b = budgets::all_budgets(&table);
    let budgets = b.values;
    if b.loose {
        return Ok(Judgement {
            kind: Kind::Loose,
            rows,
            budgets,
        });
    }
    let busy = busy::busy_length(&table);
    let search = overload::search(&table, 0, compared(busy.length));
    if let Some(found) = search.found {
        let last = Counted {
            found,
            sums: search.sums,
        };
        let first = first(&table, last).found;
        return Err(Refusal::Overload {
            at: first.at,
            demand: first.demand,
        });
    }
    if busy.length.is_none() {
        return Err(Refusal::Unsettled);
    }
    let kind = if b.firm { Kind::Mixed } else { Kind::Tight };
    Ok(Judgement {
        kind,
        rows,
        budgets,
    })
}

// The opinion on any slice. No session is made: `session::start::start` does that.
pub fn opinion(words: &[u32]) -> Result<Judgement, Refusal>
    ensures { shown_of result ≡ opinion_of words.now }
{
    let n = words.len();
    if ill_sized(n) {
        return Err(Refusal::Length(n));
    }
    match rows::first_broken(words) {
        Some(i) => Err(Refusal::Row(i)),
        None => judge(words),
    }
}
