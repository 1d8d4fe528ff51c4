// Jobs of several rows arrive on one tick, in one call (docs/SPECIFICATION.md §5.9).
#![tactic(auto)]

ghost use Rattle.std.specs.Prelude.{◌≡◌};
ghost use Rattle.session.specs.Calls.{shown, arrive_of};
ghost use Rattle.session.specs.Batch.{answered, after_all, answered_all};
ghost use Rattle.batch.specs.Walk.{Known};

use calls::arrive::{arrive_by, shared_inverses};
use session::sound::check_of;
use session::{Answer, Arrival, Outcome, Session, refuse};

// What is known of a sound session before each record: which of its rows are brittle, and the inverses of its table's periods.
#[derive(Clone, Copy)]
pub struct Shared {
    pub brittle: [bool; 16],
    pub inverses: [u64; 16],
}

// None where the session is not sound.
fn checked(s: Session) -> Option<Shared>
    ensures { Known s result }
{
    let brittle = check_of(s)?;
    let inverses = shared_inverses(s);
    Some(Shared { brittle, inverses })
}

// A record's row arrives, with the check made before. What was found still holds of the session after it.
fn arrive_checked(s: Session, shared: Option<Shared>, a: Arrival) -> Outcome
    requires { Known s shared }
    ensures { (result ≡ arrive_of s a.row) × Known result.session shared }
{
    let Some(known) = shared else {
        return refuse(s, Answer::Unsound);
    };
    arrive_by(s, &known.inverses, known.brittle, a.row)
}

// A record with its answer's numbers in their place.
fn filled(a: Arrival, o: Outcome) -> Arrival
    ensures { result ≡ answered a (shown o.answer) }
{
    let answer = o.answer;
    let n = session::show(answer);
    Arrival {
        row: a.row,
        number: n.number,
        first: n.first,
        second: n.second,
    }
}

// Every record of the list, in order. An arrival leaves a session as sound as it was, and its table, so one check does for all.
pub fn arrive_all(s: Session, list: &mut [Arrival]) -> Session
    ensures { (result ≡ after_all s list.old) × (list.new ≡ answered_all s list.old) }
{
    let shared = checked(s);
    let mut t = s;
    for i in 0..list.len() {
        let a = list[i];
        let o = arrive_checked(t, shared, a);
        list[i] = filled(a, o);
        t = o.session;
    }
    t
}
