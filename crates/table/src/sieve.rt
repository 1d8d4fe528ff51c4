// 256 ticks at once, where the steps from sum to sum are short (a segmented sieve; docs/SPECIFICATION.md §2.4, §3.1). Back
// from t the slack is t − demand(t): each tick takes one of it, and each deadline passed gives its row's C. Forth from r it is
// request(r) − r − 1: each tick takes one, and each period begun gives its row's C. So every row marks its C on its ticks, and
// one pass over the marks follows the slack.
ghost use Rattle.std.specs.Prelude.{◌≡◌, ◌≤◌, ◌<◌};
ghost use Rattle.table.specs.Rows.{tasks_of};
ghost use Rattle.table.specs.Inverse.{Tame};
ghost use Rattle.table.specs.Sieve.{since_by, until_by, place_by, Markable, Marked, Bounded, OfTwo, Lasts, Lag, Sieved};

use super::demand::jobs_by;
use super::fit::FitTable;
use super::inverse::Prepared;
use super::request::ceiling;

// By how many ticks the steps lag behind a sieve of the same cost, 0 to 256, after one step more: a sum over n rows costs about
// as much as n ticks of the sieve. At 256 the sieve is the faster way. Internal: no table has more rows.
pub fn lag_after(n: usize, step: u64, lag: u64) -> u64
    requires { (n ≤ 16) × (lag ≤ 256) }
    ensures { Lag step result }
{
    (lag + n as u64).saturating_sub(step).min(256)
}

// The ticks up to t since the last deadline that the row k can have.
fn since(k: Prepared, t: u64) -> u64
    requires { Tame k × (t ≤ 1000000) }
    ensures { result ≡ since_by k.deadline k.period t }
{
    t + (k.period - k.deadline) - k.period * jobs_by(k.deadline, k.period, k.inverse, t)
}

// The ticks from r on until the row k begins a period.
fn until(k: Prepared, r: u64) -> u64
    requires { Tame k × (r ≤ 1000000) }
    ensures { result ≡ until_by k.period r }
{
    k.period * ceiling(r, k.period, k.inverse) - r
}

// How far the row k's first mark is from the tick `at`, back or forth.
fn place(k: Prepared, at: u64, back: bool) -> u64
    requires { Tame k × (at ≤ 1000000) }
    ensures { result ≡ place_by k.deadline k.period at back }
{
    if back { since(k, at) } else { until(k, at) }
}

// Adds c at the place a and at every stride-th place after it.
fn mark(marks: &mut [u32], a: usize, stride: usize, c: u32)
    requires { Markable marks.old stride c }
    ensures { Marked marks.old marks.new a stride c }
{
    // With `(a..256).step_by(stride)`: tried, and the searches of the program `tables` take 12 to 18 % more instructions.
    let mut x = a;
    while x < 256 {
        marks[x] += c;
        x += stride;
    }
}

// How many of two ticks the slack lasts, the k-th and the next, where s and what was marked before are sum, and m is marked on
// the k-th.
fn of_two(sum: u64, k: u64, m: u64) -> u64
    ensures { OfTwo sum k m result }
{
    if k < sum {
        return 2;
    }
    if sum < k {
        return 0;
    }
    if m == 0 { 1 } else { 2 }
}

// How many ticks the slack s lasts, up to 256: each takes one of it, and then adds what is marked there. Two at a time, since
// nearly always both pass by one test.
fn lasts(marks: &[u32], s: u64) -> u64
    requires { Bounded marks.now × (s < 256) }
    ensures { Lasts marks.now s result }
{
    let mut sum = s;
    for j in 0..128 {
        let m = u64::from(marks[2 * j]);
        let two = of_two(sum, (2 * j) as u64, m);
        if two < 2 {
            return (2 * j) as u64 + two;
        }
        sum += m + u64::from(marks[2 * j + 1]);
    }
    256
}

// How many ticks from `at` on, back or forth and up to 256, the slack s lasts. Internal: no caller looks past 1,000,000.
// The way is a flag and no closure: what is promised speaks of both ways in one sentence (`Sieved`).
pub fn sieve(table: &FitTable, at: u64, back: bool, s: u64) -> u64
    requires { (at ≤ 1000000) × (s < 256) }
    ensures { Sieved (tasks_of table.now.words.now) at back s result }
{
    let n = table.rows();
    let mut marks = [0u32; 256];
    for i in 0..n {
        let k = table.prepare(i);
        let a = place(k, at, back);
        mark(&mut marks, a as usize, k.period as usize, k.run as u32);
    }
    lasts(&marks, s)
}
