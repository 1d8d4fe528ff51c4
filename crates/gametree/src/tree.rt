// Arrivals and the scheduler alternate; ticks left and rows still to decide fall (docs/SPECIFICATION.md §13.2).
ghost use Rattle.std.specs.Prelude.{◌≡◌, true, ◌-◌, ◌≤◌};
ghost use Rattle.bounded.specs.All.{all_to};
ghost use Rattle.table.specs.Rows.{tasks_of};
ghost use Rattle.gametree.specs.Bounds.{Playing};
ghost use Rattle.gametree.specs.Code.{round_of, loss_of, lost_of};

use crate::board::{Board, head, may, missed, played, released};
use table::rows::count;

// Whether arrivals can force it, where the rows below `rows` are still to decide: each is released first, and then not, which is
// only tried where the first does not win. Internal: `search` has tested the table and the ticks.
#[cycle(beaten_each_forced)]
pub fn forced(words: &[u32], b: Board, ticks: u64, rows: usize) -> bool
    requires { Playing (tasks_of words.now) b.clock ticks × (rows ≤ (tasks_of words.now).rows) }
    ensures { result ≡ round_of (tasks_of words.now) ticks rows b }
{
    if ticks == 0 {
        return false;
    }
    if rows == 0 {
        let h = head(b);
        if beaten(words, b, ticks, h) {
            return each(words, b, ticks, 4, h);
        }
        return false;
    }
    let i = rows - 1;
    let j = b.slots[i];
    if b.clock < j.next {
        return forced(words, b, ticks, i);
    }
    let q = released(words, b, i);
    if forced(words, q, ticks, i) {
        return true;
    }
    forced(words, b, ticks, i)
}

// Whether each move below m is beaten; move h is known to be.
#[cycle(beaten_each_forced)]
fn each(words: &[u32], b: Board, ticks: u64, m: usize, h: usize) -> bool
    requires { Playing (tasks_of words.now) b.clock ticks × (1 ≤ ticks) × (m ≤ 4) × (lost_of (tasks_of words.now) (ticks - 1) b h ≡ true) }
    ensures { result ≡ all_to (lost_of (tasks_of words.now) (ticks - 1) b) m }
{
    if m == 0 {
        return true;
    }
    let i = m - 1;
    if i == h {
        return each(words, b, ticks, i, h);
    }
    if may(b, i) {
        if beaten(words, b, ticks, i) {
            return each(words, b, ticks, i, h);
        }
        return false;
    }
    each(words, b, ticks, i, h)
}

// Whether move m leaves a job unfinished at its deadline, or arrivals can force one afterwards.
#[cycle(beaten_each_forced)]
fn beaten(words: &[u32], b: Board, ticks: u64, m: usize) -> bool
    requires { Playing (tasks_of words.now) b.clock ticks × (1 ≤ ticks) × (m ≤ 3) }
    ensures { result ≡ loss_of (tasks_of words.now) (ticks - 1) b m }
{
    let q = played(b, m);
    if missed(q) {
        return true;
    }
    forced(words, q, ticks - 1, count(words))
}
