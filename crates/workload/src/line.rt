// The next line of a trial (docs/WORKLOAD.md).
ghost use Rattle.std.specs.Prelude.{◌≡◌, ◌≤◌};
ghost use Rattle.bounded.specs.Within.{Within};
ghost use Rattle.table.specs.Rows.{horizon};
ghost use Rattle.workload.specs.Trial.{row_ready, until_next_lem, line_by_lem};

use crate::numbers::next;
use lines::read::{Call, Line};
use session::Session;

// The lowest row that may arrive now.
fn ready_row(s: Session) -> Option<usize>
    requires { s.count ≤ 16 }
    ensures { result ≡ row_ready s }
{
    let n = s.count as usize;
    for i in 0..n {
        if s.jobs[i].next <= s.clock {
            return Some(i);
        }
    }
    None
}

// The ticks until the next row may arrive.
fn until_next(s: Session) -> u64
    requires { s.count ≤ 16 }
    ensures { Within horizon (until_next_lem s) result }
{
    let n = s.count as usize;
    let mut m = Session::HORIZON;
    for i in 0..n {
        m = m.min(s.jobs[i].next.saturating_sub(s.clock));
    }
    m
}

// Internal: the caller's session has no more than 16 rows.
pub fn line_by(s: Session, number: u32, given: bool) -> Line
    requires { s.count ≤ 16 }
    ensures { result ≡ line_by_lem s number given }
{
    if let Some(row) = ready_row(s) {
        return Line::Call(Call::Arrive(row as u32));
    }
    let span = s.span;
    if 0 < span {
        let n = span.min(until_next(s));
        return Line::Call(Call::Advance(n as u32));
    }
    if given {
        return Line::Call(Call::Choose);
    }
    let w = next(number);
    Line::Word(w)
}
