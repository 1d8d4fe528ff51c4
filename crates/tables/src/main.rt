// Answers on the unmarked tables of docs/SPECIFICATION.md §7 and on others, one a line: number, two values; V of each row
// of an admitted table; and, for rows that keep their rule, how many sums over the rows the busy length and the search for
// the first overload take, where a scan of the ticks takes as many as the compared range has, which is printed last.
#![tactic(auto)]

ghost use Rattle.table.specs.Rows.{tasks_of, Fit};

use std::fmt::Display;
use std::io;
use table::Judgement;
use table::first::{Counted, first};
use table::fit::FitTable;

fn put<D: Display + Drop>(rt: &impl Print, n: D) -> io::Result<()> {
    print!(rt; "{n}\t")
}

fn put_budgets(rt: &impl Print, j: Judgement) -> io::Result<()> {
    for &v in &j.budgets[..j.rows.min(16)] {
        put(rt, v)?;
    }
    Ok(())
}

// Rows that keep their rule.
fn put_sums(rt: &impl Print, words: &[u32]) -> io::Result<()>
    requires { Fit (tasks_of words.now) }
{
    let inverses = table::inverse::inverses_of(words);
    let fit = FitTable {
        words,
        inverses: &inverses,
    };
    let busy = table::busy::busy_length(&fit);
    let end = table::compared(busy.length);
    let search = table::overload::search(&fit, 0, end);
    print!(rt; "sums\t")?;
    put(rt, busy.sums)?;
    if let Some(found) = search.found {
        let last = Counted {
            found,
            sums: search.sums,
        };
        put(rt, first(&fit, last).sums)?;
    } else {
        put(rt, search.sums)?;
    }
    put(rt, end)
}

fn answer(rt: &impl Print, words: &[u32]) -> io::Result<()> {
    let opinion = table::opinion(words);
    let n = table::shown(opinion);
    put(rt, n.number)?;
    put(rt, n.first)?;
    put(rt, n.second)?;
    if let Ok(j) = opinion {
        put_budgets(rt, j)?;
    }
    // Tested by the number: `shown_fit` says that the rows keep their rule where it is not 1 or 2.
    if n.number != 1 && n.number != 2 {
        put_sums(rt, words)?;
    }
    println!(rt)
}

// 16 rows, loose. `walk` has them too: each program shows the tables that it takes.
const SIXTEEN: [u32; 48] = [
    1, 100, 100, 2, 100, 100, 3, 100, 100, 4, 100, 100, 1, 200, 150, 2, 200, 150, 3, 200, 150, 4,
    200, 150, 1, 300, 300, 1, 300, 300, 1, 300, 300, 1, 300, 300, 2, 400, 400, 2, 400, 400, 2, 400,
    400, 2, 400, 400,
];

// No busy length up to 1,000,000: the utilisation is 1 but for some millionths.
const NO_BUSY_LENGTH: [u32; 18] = [
    1, 2, 2, 1, 3, 3, 1, 7, 7, 1, 43, 43, 1, 1807, 1807, 1, 1000000, 1000000,
];

// The same with a busy length, 360,600.
const LONG_BUSY_LENGTH: [u32; 18] = [
    1, 2, 2, 1, 3, 3, 1, 8, 8, 1, 25, 25, 1, 601, 601, 1, 361201, 361201,
];

// A busy length of 1,000,000.
const LONGEST_BUSY_LENGTH: [u32; 12] = [
    7, 10, 8, 100000, 1000000, 999999, 190000, 1000000, 1000000, 5000, 700000, 60000,
];

// 16 short rows that leave less than a millionth of all time, so that steps go some five ticks.
const SHORT_STEPS: [u32; 48] = [
    1, 21, 21, 1, 11, 5, 1, 16, 16, 1, 14, 7, 1, 9, 7, 1, 21, 6, 1, 30, 30, 1, 21, 15, 1, 22, 22,
    1, 12, 8, 1, 13, 13, 1, 17, 2, 1, 14, 11, 1, 22, 10, 1, 21, 9, 1, 17, 11,
];

// 15 short rows that use up all of the time, each with another deadline, and a long row whose deadline is the first overload.
const LATE_OVERLOAD: [u32; 48] = [
    6, 90, 6, 6, 90, 12, 6, 90, 18, 6, 90, 24, 6, 90, 30, 6, 90, 36, 6, 90, 42, 6, 90, 48, 6, 90,
    54, 6, 90, 60, 6, 90, 66, 6, 90, 72, 6, 90, 78, 6, 90, 84, 6, 90, 90, 1, 1000000, 999990,
];

// The list of §7.
fn listed(rt: &impl Print) -> io::Result<()> {
    answer(rt, &[1, 2, 2, 500000, 1000000, 1000000])?;
    answer(rt, &[1, 2, 2, 500000, 999999, 999999])?;
    let sixteen = SIXTEEN;
    answer(rt, &sixteen)?;
    answer(rt, &[1u32; 51])
}

// What a slice can be short of, the lower number first.
fn refused(rt: &impl Print) -> io::Result<()> {
    answer(rt, &[1u32; 1])?;
    answer(rt, &[1u32; 47])?;
    answer(rt, &[0, 5, 5])?;
    answer(rt, &[3, 5, 2, 9, 9, 9, 9, 9, 9])?;
    answer(rt, &[9, 9, 9, 9, 9, 9, 3, 2, 3])?;
    answer(rt, &[1, 1000001, 1])?;
    answer(rt, &[4294967295, 4294967295, 4294967295])?;
    answer(rt, &[9, 9, 9, 9, 9, 9])
}

// Tables that are hard to decide: short periods that use up nearly all of the time.
fn hard(rt: &impl Print) -> io::Result<()> {
    answer(rt, &[1, 5, 5, 3, 8, 8, 2, 9, 9, 4, 20, 20])?;
    answer(rt, &[1, 2, 2, 1, 3, 3, 1, 7, 7, 1, 42, 42])?;
    let none = NO_BUSY_LENGTH;
    answer(rt, &none)?;
    let long = LONG_BUSY_LENGTH;
    answer(rt, &long)?;
    answer(
        rt,
        &[999, 1000, 1000, 500, 1000000, 500000, 300, 1000000, 1000000],
    )?;
    let longest = LONGEST_BUSY_LENGTH;
    answer(rt, &longest)
}

// Tables that take many short steps; the second is overloaded, since two deadlines differ by a tick.
fn short_steps(rt: &impl Print) -> io::Result<()> {
    let mut short = SHORT_STEPS;
    answer(rt, &short)?;
    short[44] = 10;
    short[47] = 10;
    answer(rt, &short)
}

// Tables whose first overload is one of many, or lies at the end of a long stretch without one; and one without, as long.
fn first_overloads(rt: &impl Print) -> io::Result<()> {
    answer(rt, &[1, 2, 2, 2, 3, 3])?;
    answer(rt, &[1, 2, 2, 1, 3, 3, 1, 6, 6, 1, 1000000, 999990])?;
    answer(rt, &[1, 2, 2, 1, 3, 3, 1, 6, 6, 1, 1000000, 1000000])?;
    let late = LATE_OVERLOAD;
    answer(rt, &late)
}

fn answer_all(rt: &impl Print) -> io::Result<()> {
    listed(rt)?;
    refused(rt)?;
    hard(rt)?;
    short_steps(rt)?;
    first_overloads(rt)
}

fn main(rt: HostRuntime) {
    // What cannot be written is lost.
    let _ = answer_all(&rt);
}
