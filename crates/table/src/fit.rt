// A table whose rows keep their rule, which bounds its numbers: what the budgets, the requests and the demands are taken of.
ghost use Rattle.std.specs.Prelude.{◌≡◌, ◌<◌};
ghost use Rattle.table.specs.Rows.{tasks_of, Fit, FitRow};
ghost use Rattle.table.specs.Inverse.{Inverses, Ready};

use super::inverse::Prepared;
use super::rows::{Task, count, fit_row};

// Its numbers, and the inverses of its rows' periods. Internal: `opinion` tests the rows first.
#[derive(Clone, Copy)]
pub struct FitTable<'a> {
    pub words: &'a [u32],
    pub inverses: &'a [u64; 16],
    ghost fit: { Fit (tasks_of words.now) },
    ghost ready: { Inverses (tasks_of words.now) inverses.now },
}

impl FitTable<'_> {
    // How many there are.
    pub fn rows(&self) -> usize
        ensures { result ≡ (tasks_of self.now.words.now).rows }
    {
        count(self.words)
    }

    // Row i. Its callers count the rows.
    pub fn row(&self, i: usize) -> Task
        requires { i < (tasks_of self.now.words.now).rows }
        ensures { FitRow (tasks_of self.now.words.now) i result }
    {
        fit_row(self.words, i)
    }

    // Row i with its period's inverse.
    pub fn prepare(&self, i: usize) -> Prepared
        requires { i < (tasks_of self.now.words.now).rows }
        ensures { Ready (tasks_of self.now.words.now) i result }
    {
        let k = self.row(i);
        let inverse = self.inverses[i];
        Prepared {
            run: k.run,
            period: k.period,
            deadline: k.deadline,
            inverse,
        }
    }
}
