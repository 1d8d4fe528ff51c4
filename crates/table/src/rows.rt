// The rows of a table and their rule (docs/SPECIFICATION.md §2.1).
ghost use Rattle.std.specs.Prelude.{◌≡◌, ◌<◌, length};
ghost use Rattle.table.specs.Rows.{tasks_of, broken, FirstBroken, Row, Fit, FitRow};
ghost use Rattle.table.specs.Words.{words_with};

// A row: C, the longest run (worst-case execution time); T, the least time between arrivals (period); D, the time from
// arrival to deadline (relative deadline).
#[derive(Clone, Copy)]
pub struct Task {
    pub run: u64,
    pub period: u64,
    pub deadline: u64,
}

// Row i. Its callers loop over the rows that there are.
pub fn row_at(words: &[u32], i: usize) -> Task
    requires { i < (tasks_of words.now).rows }
    ensures { Row (tasks_of words.now) i result }
{
    let at = 3 * i;
    let run = u64::from(words[at]);
    let period = u64::from(words[at + 1]);
    let deadline = u64::from(words[at + 2]);
    Task {
        run,
        period,
        deadline,
    }
}

// Whether row i breaks its rule, 1 ≤ C ≤ D ≤ T ≤ 1,000,000.
fn breaks(words: &[u32], i: usize) -> bool
    requires { i < (tasks_of words.now).rows }
    ensures { result ≡ broken (tasks_of words.now) i }
{
    let k = row_at(words, i);
    k.run < 1 || k.deadline < k.run || k.period < k.deadline || 1000000 < k.period
}

pub fn count(words: &[u32]) -> usize
    ensures { result ≡ (tasks_of words.now).rows }
{
    words.len() / 3
}

// The first row that breaks its rule, if one does.
pub fn first_broken(words: &[u32]) -> Option<usize>
    ensures { FirstBroken (tasks_of words.now) result }
{
    for i in 0..count(words) {
        if breaks(words, i) {
            return Some(i);
        }
    }
    None
}

// Row i of a table whose rows keep their rule, which bounds its numbers. Internal: its callers have tested that.
pub fn fit_row(words: &[u32], i: usize) -> Task
    requires { Fit (tasks_of words.now) × (i < (tasks_of words.now).rows) }
    ensures { FitRow (tasks_of words.now) i result }
{
    row_at(words, i)
}

// The numbers of row i of a table that is read row by row into 48 places. Internal: its callers count the rows.
pub fn put_row(words: &mut [u32], i: usize, run: u32, period: u32, deadline: u32)
    requires { (length words.old ≡ 48) × (i < 16) }
    ensures { words.new ≡ words_with words.old i run period deadline }
{
    words[3 * i] = run;
    words[3 * i + 1] = period;
    words[3 * i + 2] = deadline;
}
