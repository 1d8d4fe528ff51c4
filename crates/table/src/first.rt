// The first tick whose demand exceeds it (docs/SPECIFICATION.md §3.1). Only a table that is refused pays for it: the ticks
// below one that is exceeded are halved, and each half is searched from its end, so that no tick is summed up twice.
ghost use Rattle.std.specs.Prelude.{◌≡◌, ◌≤◌};
ghost use Rattle.table.specs.Rows.{tasks_of};
ghost use Rattle.table.specs.Overload.{Exceeds};
ghost use Rattle.table.specs.First.{First, narrow_by};

use super::fit::FitTable;
use super::overload::{Found, Outcome, search};

// A tick that is exceeded, and how many times the demand was summed up to find it.
#[derive(Clone, Copy)]
pub struct Counted {
    pub found: Found,
    pub sums: u64,
}

// No tick up to floor is exceeded, and the one found is; with the sums so far.
#[derive(Clone, Copy)]
struct Range {
    floor: u64,
    found: Found,
    sums: u64,
}

// What is left of the range r where s is the search up to its middle.
fn narrow(r: Range, middle: u64, s: Outcome) -> Range
    requires { (r.sums ≤ 1000000) × (s.sums ≤ 1000000) }
    ensures { result ≡ narrow_by r middle s.found s.sums }
{
    let sums = r.sums + s.sums;
    match s.found {
        Some(found) => Range {
            floor: r.floor,
            found,
            sums,
        },
        None => Range {
            floor: middle,
            found: r.found,
            sums,
        },
    }
}

// The first tick that is exceeded, where `found` is one of them. Internal: its callers have it from a search.
pub fn first(table: &FitTable, found: Counted) -> Counted
    requires { Exceeds (tasks_of table.now.words.now) 0 1000000 found }
    ensures { First (tasks_of table.now.words.now) found result }
{
    let mut r = Range {
        floor: 0,
        found: found.found,
        sums: found.sums,
    };
    while r.floor + 1 < r.found.at {
        let middle = r.floor + (r.found.at - r.floor) / 2;
        let s = search(table, r.floor, middle);
        r = narrow(r, middle, s);
    }
    Counted {
        found: r.found,
        sums: r.sums,
    }
}
