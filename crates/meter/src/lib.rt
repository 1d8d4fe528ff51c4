// How mixed a schedule is (docs/SPECIFICATION.md §10).
#![tactic(auto)]

ghost use Rattle.std.specs.Prelude.{◌≡◌, ◌+◌, ◌-◌, ◌%◌, ◌≤◌, ◌<◌, leb, length, get_or, set};
ghost use Rattle.bounded.specs.Tests.{gate};
ghost use Rattle.bounded.specs.Within.{Within};
ghost use Rattle.meter.specs.Meter.{differ_by, differing, fits, alike, gap_at, stretch_of, meter_of, measure_of};
ghost use Rattle.meter.specs.Rule.{Shaped};
ghost use Rattle.meter.specs.Code.{Place, apart, Counts, Joins, Moving, Moved, like_at, gaps_of_lem};

use log::eighths;

pub mod log;

// K stretches of L ticks, and when two of them are alike at a tick: if their intervals of `window` ticks from there on differ
// in at most `threshold` ticks.
#[derive(Clone, Copy)]
pub struct Shape {
    pub stretches: usize,
    pub ticks: usize,
    pub window: usize,
    pub threshold: u64,
}

// The refusal 14: K, L, m or the slice's length breaks the rule.
#[derive(Clone, Copy, Debug, PartialEq, Eq)]
pub struct BadShape;

// A slice that keeps the rule: the stretches one after another, a row number per tick.
#[derive(Clone, Copy)]
struct Schedule<'a> {
    rows: &'a [u8],
    shape: Shape,
    ghost shaped: { Shaped rows.now shape },
}

// 1 if two rows differ.
fn differ(x: u8, y: u8) -> u16
    ensures { Within 1 (differ_by x y) result }
{
    u16::from(x != y)
}

// In how many of the n ticks from places p and q on the rows differ.
fn differing_in(s: &[u8], p: usize, q: usize, n: usize) -> u16
    requires { (p + n ≤ length s.now) × (q + n ≤ length s.now) × (length s.now ≤ 16384) }
    ensures { Within n (apart s.now p q n) result }
{
    // Tried with `zip`, `filter` and `count`: the proof did not close. `count` gives how many items its iterator gave, and a law
    // from there to `apart` is lacking.
    let mut sum: u16 = 0;
    for x in 0..n {
        sum += differ(s[p + x], s[q + x]);
    }
    sum
}

// Tick x, counted around the end of a stretch of l ticks.
fn around(x: usize, l: usize) -> usize
    requires { x < l + l }
    ensures { result ≡ x % l }
{
    // Not `x % l`. Tried, slower: 96,623,786 instructions for 255 stretches of 64 ticks, and 84,025,515 so.
    if x < l {
        return x;
    }
    x - l
}

// A count d one tick on: tick t leaves the intervals of the stretches at places p and q, and tick e joins them.
fn moved(s: &[u8], p: usize, q: usize, t: usize, e: usize, d: u16) -> u16
    requires { Moving s.now p q t e d }
    ensures { Moved s.now p q t e d result }
{
    let gone = differ(s[p + t], s[q + t]);
    let come = differ(s[p + e], s[q + e]);
    d + come - gone
}

// 1 if a count is at most the threshold.
fn near(d: u16, threshold: u64) -> u64
    ensures { Within 1 (gate (leb d threshold) 1) result }
{
    u64::from(u64::from(d) <= threshold)
}

// The gap of c.
fn entry(gaps: &[u64; 255], c: u64) -> u64
    requires { (1 ≤ c) × (c ≤ 255) }
    ensures { result ≡ get_or gaps.now (c - 1) 0 }
{
    gaps[(c - 1) as usize]
}

// g(n) - g(c) for each c from 1 to n, in place c - 1: the logarithms are worked out once, and not at each tick.
fn gaps_of(n: usize) -> [u64; 255]
    requires { (1 ≤ n) × (n ≤ 255) }
    ensures { result ≡ gaps_of_lem n }
{
    let top = eighths(n as u64);
    let mut gaps = [0u64; 255];
    for i in 0..n {
        gaps[i] = top - eighths(i as u64 + 1);
    }
    gaps
}

impl Schedule<'_> {
    // Where stretch k begins in the slice.
    fn place_of(&self, k: usize) -> usize
        requires { k < self.now.shape.stretches }
        ensures { Place self.now.rows.now self.now.shape k result }
    {
        k * self.shape.ticks
    }

    // In how many ticks the first interval of stretch k and that of each stretch differ.
    fn first_counts(&self, k: usize) -> [u16; 255]
        requires { k < self.now.shape.stretches }
        ensures { Counts self.now.rows.now self.now.shape k 0 result }
    {
        let n = self.shape.stretches;
        let m = self.shape.window;
        let p = self.place_of(k);
        let mut counts = [0u16; 255];
        for j in 0..n {
            let q = self.place_of(j);
            counts[j] = differing_in(self.rows, p, q, m);
        }
        counts
    }

    // The tick that joins an interval when it goes one tick on from t.
    fn joining(&self, t: usize) -> usize
        requires { t < self.now.shape.ticks }
        ensures { Joins self.now.shape t result }
    {
        around(t + self.shape.window, self.shape.ticks)
    }

    // 1 if stretch j is like stretch k at tick t. Its count goes one tick on.
    fn like(&self, k: usize, t: usize, j: usize, counts: &mut [u16; 255]) -> u64
        requires { (k < self.now.shape.stretches) × (t < self.now.shape.ticks) × (j < self.now.shape.stretches) × (get_or counts.old j 0 ≡ differing self.now.rows.now self.now.shape k j t) }
        ensures { Within 1 (like_at self.now.rows.now self.now.shape k t j) result × (counts.new ≡ set counts.old j (differing self.now.rows.now self.now.shape k j (t + 1))) }
    {
        let p = self.place_of(k);
        let q = self.place_of(j);
        let e = self.joining(t);
        let d = counts[j];
        counts[j] = moved(self.rows, p, q, t, e, d);
        near(d, self.shape.threshold)
    }

    // How many stretches are like stretch k at tick t. The counts go one tick on.
    fn alike_at(&self, k: usize, t: usize, counts: &mut [u16; 255]) -> u64
        requires { (k < self.now.shape.stretches) × (t < self.now.shape.ticks) × Counts self.now.rows.now self.now.shape k t counts.old }
        ensures { (result ≡ alike self.now.rows.now self.now.shape k t) × Counts self.now.rows.now self.now.shape k (t + 1) counts.new }
    {
        let n = self.shape.stretches;
        let mut c: u64 = 0;
        for j in 0..n {
            c += self.like(k, t, j, counts);
        }
        c
    }

    // What tick t of stretch k adds to the meter. The counts go one tick on.
    fn gap(&self, gaps: &[u64; 255], k: usize, t: usize, counts: &mut [u16; 255]) -> u64
        requires { (gaps.now ≡ gaps_of_lem self.now.shape.stretches) × (k < self.now.shape.stretches) × (t < self.now.shape.ticks) × Counts self.now.rows.now self.now.shape k t counts.old }
        ensures { Within 63 (gap_at self.now.rows.now self.now.shape k t) result × Counts self.now.rows.now self.now.shape k (t + 1) counts.new }
    {
        let c = self.alike_at(k, t, counts);
        entry(gaps, c)
    }

    // What stretch k adds to the meter.
    fn stretch(&self, gaps: &[u64; 255], k: usize) -> u64
        requires { (gaps.now ≡ gaps_of_lem self.now.shape.stretches) × (k < self.now.shape.stretches) }
        ensures { Within 1032192 (stretch_of self.now.rows.now self.now.shape k) result }
    {
        let l = self.shape.ticks;
        let mut counts = self.first_counts(k);
        let mut sum: u64 = 0;
        for t in 0..l {
            sum += self.gap(gaps, k, t, &mut counts);
        }
        sum
    }

    // The meter.
    fn total(&self) -> u64
        ensures { result ≡ meter_of self.now.rows.now self.now.shape }
    {
        let n = self.shape.stretches;
        let gaps = gaps_of(n);
        let mut sum: u64 = 0;
        for k in 0..n {
            sum += self.stretch(&gaps, k);
        }
        sum
    }
}

// Whether K, L, m and the slice's length keep the rule.
fn is_fit(s: &[u8], h: Shape) -> bool
    ensures { result ≡ fits s.now h }
{
    let n = h.stretches;
    let l = h.ticks;
    let m = h.window;
    // The last of these so that the product does not wrap.
    if n < 1 || 255 < n || m < 1 || l < m || 16384 < l {
        return false;
    }
    let size = n * l;
    size <= 16384 && s.len() == size
}

// How mixed a schedule is: the stretches stand one after another in the slice, a row number per tick.
pub fn measure(s: &[u8], h: Shape) -> Result<u64, BadShape>
    ensures { result ≡ measure_of s.now h }
{
    if !is_fit(s, h) {
        return Err(BadShape);
    }
    let schedule = Schedule { rows: s, shape: h };
    Ok(schedule.total())
}
