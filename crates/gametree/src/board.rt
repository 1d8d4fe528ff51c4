// A position of the game, and the moves in it (docs/SPECIFICATION.md §13.1).
ghost use Rattle.std.specs.Prelude.{◌≡◌, true, ◌+◌, ◌≤◌, ◌<◌};
ghost use Rattle.table.specs.Rows.{tasks_of};
ghost use Rattle.gametree.specs.Search.{released_of, played_of, may_of, late_by, missed_of};
ghost use Rattle.gametree.specs.Bounds.{Playing};

use table::rows::fit_row;

// Of a row: its earliest next release; and its last job's deadline and the ticks that this still has to run. No job of the row
// waits where `left` is 0.
#[derive(Clone, Copy)]
pub struct Slot {
    pub next: u64,
    pub due: u64,
    pub left: u64,
}

// What both sides see before a move. Slots past the table's rows have no job.
#[derive(Clone, Copy)]
pub struct Board {
    pub clock: u64,
    pub slots: [Slot; 3],
}

// Arrivals release a job of row i. Internal: `tree` has tested that they may.
pub fn released(words: &[u32], b: Board, i: usize) -> Board
    requires { Playing (tasks_of words.now) b.clock 0 × (i < (tasks_of words.now).rows) }
    ensures { (result ≡ released_of (tasks_of words.now) b i) × (result.clock ≡ b.clock) }
{
    let k = fit_row(words, i);
    let mut after = b;
    let clock = b.clock;
    after.slots[i] = Slot {
        next: clock + k.period,
        due: clock + k.deadline,
        left: k.run,
    };
    after
}

// The scheduler gives the tick to row m, or to none where m is 3. Internal: `tree` counts the ticks.
// No Option: `tree::each` counts the four moves down, and the game's definitions number them so (specs/Search.antt).
pub fn played(b: Board, m: usize) -> Board
    requires { (b.clock < 12) × (m ≤ 3) }
    ensures { (result ≡ played_of b m) × (result.clock ≡ b.clock + 1) }
{
    let mut after = b;
    after.clock += 1;
    if 3 <= m {
        return after;
    }
    let j = b.slots[m];
    after.slots[m] = Slot {
        left: j.left.saturating_sub(1),
        ..j
    };
    after
}

// Whether the job is unfinished at its deadline.
fn late(j: Slot, clock: u64) -> bool
    ensures { result ≡ late_by j clock }
{
    0 < j.left && j.due <= clock
}

// Whether some job is.
pub fn missed(b: Board) -> bool
    ensures { result ≡ missed_of b }
{
    for &j in &b.slots {
        if late(j, b.clock) {
            return true;
        }
    }
    false
}

// Whether the scheduler may give the tick to m: a job that waits, or none. Internal: there are four moves.
pub fn may(b: Board, m: usize) -> bool
    requires { m ≤ 3 }
    ensures { result ≡ may_of b m }
{
    if 3 <= m {
        return true;
    }
    let j = b.slots[m];
    0 < j.left
}

// Of move h and row i the one whose job is due first; h is 3 where no job waits so far.
fn sooner(b: Board, h: usize, i: usize) -> usize
    requires { (h ≤ 3) × (may_of b h ≡ true) × (i < 3) }
    ensures { (result ≤ 3) × (may_of b result ≡ true) }
{
    let j = b.slots[i];
    if j.left == 0 {
        return h;
    }
    if h == 3 {
        return i;
    }
    let k = b.slots[h];
    if j.due < k.due { i } else { h }
}

// A job of earliest deadline, the move that is tried first. Whichever it is, the answer is the same: only that it is a move is
// promised.
pub fn head(b: Board) -> usize
    ensures { (result ≤ 3) × (may_of b result ≡ true) }
{
    let a = sooner(b, 3, 0);
    let c = sooner(b, a, 1);
    sooner(b, c, 2)
}
