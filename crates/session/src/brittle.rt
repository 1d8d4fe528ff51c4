// Which rows of a sound session are brittle, for callers who have not checked it (docs/SPECIFICATION.md §3.1).
ghost use Rattle.std.specs.Prelude.{◌≡◌, true};
ghost use Rattle.session.specs.Sound.{sound};
ghost use Rattle.session.specs.Brittle.{Marks};

use super::Session;
use table::budgets::all_budgets;
use table::fit::FitTable;
use table::inverse::inverses_of;

// None is in a loose session, and each is in a tight one. In a mixed one it takes V of each row.
pub fn brittle_rows(s: Session) -> [bool; 16]
    requires { sound s ≡ true }
    ensures { Marks s result }
{
    let kind = s.kind;
    if kind == 1 {
        return [false; 16];
    }
    if kind == 2 {
        return [true; 16];
    }
    let words = s.words;
    let e = 3 * (s.count as usize);
    let rows = &words[..e];
    let inverses = inverses_of(rows);
    let table = FitTable {
        words: rows,
        inverses: &inverses,
    };
    let b = all_budgets(&table);
    b.brittle
}
