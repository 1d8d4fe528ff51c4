// A start: from a table to its fresh session (docs/SPECIFICATION.md §5.1).
ghost use Rattle.std.specs.Prelude.{◌≡◌};
ghost use Rattle.table.specs.Verdict.{opinion_of};
ghost use Rattle.table.specs.Opinion.{Says};
ghost use Rattle.session.specs.Start.{no_session, start_of, Starts};

use super::Session;
use table::{Judgement, Refusal};

// The opinion on the table, and the session that the start leaves.
#[derive(Clone, Copy)]
pub struct Started {
    pub opinion: Result<Judgement, Refusal>,
    pub session: Session,
}

// The session alone, for a caller who has asked for the opinion, so that the table is judged once. `s` is the session
// before, which a refused table leaves.
pub fn start_by(s: Session, words: &[u32], opinion: Result<Judgement, Refusal>) -> Session
    requires { Says opinion (opinion_of words.now) }
    ensures { result ≡ start_of s words.now }
{
    match opinion {
        Ok(j) => Session::fresh(words, u64::from(j.kind)),
        Err(_) => s,
    }
}

// In place of the session `s`, which a refused table leaves as it was.
pub fn start_on(s: Session, words: &[u32]) -> Started
    ensures { Starts s words.now result }
{
    let opinion = table::opinion(words);
    let session = start_by(s, words, opinion);
    Started { opinion, session }
}

// The fresh session of a table; no session where it is refused.
pub fn start(words: &[u32]) -> Started
    ensures { Starts no_session words.now result }
{
    start_on(Session::none(), words)
}
