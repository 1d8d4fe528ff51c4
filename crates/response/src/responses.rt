// D − V of each row: how long its jobs can take where no later job runs before them (docs/SPECIFICATION.md §14.1).
ghost use Rattle.table.specs.Rows.{tasks_of, Fit};
ghost use Rattle.response.specs.Responses.{Responses};

use table::budgets::interfering;
use table::fit::FitTable;
use table::inverse::inverses_of;

// C, and what the other rows can take in D. The table is admitted.
pub fn responses(words: &[u32]) -> [u64; 16]
    requires { Fit (tasks_of words.now) }
    ensures { Responses (tasks_of words.now) result }
{
    let inverses = inverses_of(words);
    let table = FitTable {
        words,
        inverses: &inverses,
    };
    let rows = table.rows();
    let mut spans = [0u64; 16];
    for i in 0..rows {
        let k = table.row(i);
        spans[i] = k.run + interfering(&table, i, k.deadline);
    }
    spans
}
