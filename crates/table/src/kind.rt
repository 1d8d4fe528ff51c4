// What a session's check asks of a table: the kind that it is admitted as, and which rows are brittle (docs/SPECIFICATION.md
// §5.2). It needs no busy length, nor which refusal it is, and so takes less than `opinion`.
ghost use Rattle.std.specs.Prelude.{◌≡◌};
ghost use Rattle.table.specs.Rows.{tasks_of, Fit};
ghost use Rattle.table.specs.Opinion.{kind_number};
ghost use Rattle.table.specs.Kind.{FitKind, KindFor};

use super::budgets::all_budgets;
use super::fit::FitTable;
use super::ill_sized;
use super::inverse::inverses_of;
use super::overload::search;
use super::rows::first_broken;
use super::settle::settling;

// The kind of an admitted table; 1, 2 or 3 where it is a number.
#[derive(Clone, Copy)]
pub enum Kind {
    Loose,
    Tight,
    Mixed,
}

impl From<Kind> for u64 {
    ghost from_gives = { λ k n. n ≡ kind_number k };

    fn from(kind: Kind) -> u64 {
        match kind {
            Kind::Loose => 1,
            Kind::Tight => 2,
            Kind::Mixed => 3,
        }
    }
}

// An admitted table's kind, and which of its rows are brittle.
#[derive(Clone, Copy)]
pub struct Admission {
    pub kind: Kind,
    pub brittle: [bool; 16],
}

// The kind of rows that keep their rule.
fn fit_kind(words: &[u32]) -> Option<Admission>
    requires { Fit (tasks_of words.now) }
    ensures { FitKind (tasks_of words.now) result }
{
    let inverses = inverses_of(words);
    let table = FitTable {
        words,
        inverses: &inverses,
    };
    let b = all_budgets(&table);
    let brittle = b.brittle;
    if b.loose {
        return Some(Admission {
            kind: Kind::Loose,
            brittle,
        });
    }
    let end = settling(&table)?;
    let s = search(&table, 0, end);
    if s.found.is_some() {
        return None;
    }
    let kind = if b.firm { Kind::Mixed } else { Kind::Tight };
    Some(Admission { kind, brittle })
}

// The kind of any slice; none where the table is refused.
pub fn kind_of(words: &[u32]) -> Option<Admission>
    ensures { KindFor words.now result }
{
    if ill_sized(words.len()) {
        return None;
    }
    if first_broken(words).is_some() {
        return None;
    }
    fit_kind(words)
}
