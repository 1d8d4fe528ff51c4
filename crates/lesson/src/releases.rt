// The answer to a question, and the line of releases that wins (docs/SPECIFICATION.md §13.4).
ghost use Rattle.std.specs.Prelude.{◌≡◌, ◌+◌, ◌≤◌, ◌<◌, length};
ghost use Rattle.decimal.specs.Buffer.{Wrote};
ghost use Rattle.table.specs.Rows.{tasks_of, Fit};
ghost use Rattle.lesson.specs.Lesson.{overload_within, release_text, tick_text, releases_text, answer_text};

use gametree::Finding;
use lines::write::put_line;
use table::demand::demand_at;
use table::fit::FitTable;
use table::inverse::inverses_of;
use table::rows::{count, fit_row};

// The least t up to n with a demand above it.
fn first_over(words: &[u32], n: u64) -> Option<u64>
    requires { Fit (tasks_of words.now) × (n ≤ 12) }
    ensures { result ≡ overload_within (tasks_of words.now) n }
{
    let inverses = inverses_of(words);
    let table = FitTable {
        words,
        inverses: &inverses,
    };
    let end = n + 1;
    for t in 0..end {
        if t < demand_at(&table, t) {
            return Some(t);
        }
    }
    None
}

// The release of row i at tick c, if the line to t has it.
fn put_release(words: &[u32], t: u64, c: u64, i: usize, out: &mut [u8], at: usize) -> usize
    requires { Fit (tasks_of words.now) × (i < (tasks_of words.now).rows) × (c ≤ 12) × (at + 86 ≤ length out.old) }
    ensures { Wrote 86 (release_text (tasks_of words.now) t c i) out.old out.new at result }
{
    let k = fit_row(words, i);
    if c % k.period != 0 {
        return at;
    }
    let due = c + k.deadline;
    if t < due {
        return at;
    }
    put_line(out, at, c, b'A', 0, i as u64, due)
}

// Those of tick c.
fn put_tick(words: &[u32], t: u64, c: u64, out: &mut [u8], at: usize) -> usize
    requires { Fit (tasks_of words.now) × ((tasks_of words.now).rows ≤ 3) × (c ≤ 12) × (at + 258 ≤ length out.old) }
    ensures { Wrote 258 (tick_text (tasks_of words.now) t c) out.old out.new at result }
{
    let rows = count(words);
    let mut e = at;
    for i in 0..rows {
        e = put_release(words, t, c, i, out, e);
    }
    e
}

// The line to t, tick by tick.
fn put_releases(words: &[u32], t: u64, out: &mut [u8], at: usize) -> usize
    requires { Fit (tasks_of words.now) × ((tasks_of words.now).rows ≤ 3) × (t ≤ 12) × (at + 3096 ≤ length out.old) }
    ensures { Wrote 3096 (releases_text (tasks_of words.now) t) out.old out.new at result }
{
    let mut e = at;
    for c in 0..t {
        e = put_tick(words, t, c, out, e);
    }
    e
}

// The answer of the search on these rows, within n ticks. Internal: `step` has seen to the room.
pub fn put_answer(words: &[u32], n: u64, out: &mut [u8], at: usize) -> usize
    requires { at + 3182 ≤ length out.old }
    ensures { Wrote 3182 (answer_text words.now n) out.old out.new at result }
{
    let f = gametree::search(words, n);
    let v = gametree::shown(f);
    let e = put_line(out, at, 0, b'N', v.number, v.first, v.second);
    match f {
        Ok(finding) => match finding {
            Finding::Forced => match first_over(words, n) {
                Some(t) => put_releases(words, t, out, e),
                // not met: where the search says `Forced`, there is one
                None => e,
            },
            Finding::Held => e,
        },
        Err(_) => e,
    }
}
