// Arrivals against the scheduler for up to 3 rows and 12 ticks: the game played out (docs/SPECIFICATION.md §13.2; a game tree
// search).
#![tactic(auto)]

ghost use Rattle.std.specs.Prelude.{◌≡◌};
ghost use Rattle.gametree.specs.Entry.{playable_of, search_of, numbers_of};
ghost use Rattle.gametree.specs.Statement.{Says};

use board::{Board, Slot};
use table::Numbers;
use table::rows::{count, first_broken};

mod board;
mod tree;

#[derive(Clone, Copy)]
pub enum Finding {
    // Arrivals can force a job unfinished at its deadline.
    Forced,
    // They can't.
    Held,
}

// Why no search is made.
#[derive(Clone, Copy)]
pub enum Refusal {
    // 16: the slice, its rows or N break their rules.
    BrokenRules,
}

// Whether a search is made: 1 to 3 rows that keep their rule, and 1 to 12 ticks.
fn playable(words: &[u32], n: u64) -> bool
    ensures { result ≡ playable_of words.now n }
{
    let len = words.len();
    len != 0 && len <= 9 && len % 3 == 0 && n != 0 && n <= 12 && first_broken(words).is_none()
}

// Whether arrivals can force a job unfinished at its deadline within n ticks.
pub fn search(words: &[u32], n: u64) -> Result<Finding, Refusal>
    ensures { (result ≡ search_of words.now n) × Says words.now n result }
{
    if playable(words, n) {
        let b = Board {
            clock: 0,
            slots: [Slot {
                next: 0,
                due: 0,
                left: 0,
            }; 3],
        };
        if tree::forced(words, b, n, count(words)) {
            return Ok(Finding::Forced);
        }
        return Ok(Finding::Held);
    }
    Err(Refusal::BrokenRules)
}

// An answer in numbers.
pub fn shown(f: Result<Finding, Refusal>) -> Numbers
    ensures { result ≡ numbers_of f }
{
    match f {
        Ok(Finding::Forced) => Numbers {
            number: 0,
            first: 1,
            second: 0,
        },
        Ok(Finding::Held) => Numbers {
            number: 0,
            first: 0,
            second: 0,
        },
        Err(Refusal::BrokenRules) => Numbers {
            number: 16,
            first: 0,
            second: 0,
        },
    }
}
