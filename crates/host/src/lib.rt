// The library for C: the opinion on a table, and the calls on a session record of the host, a start and a batch of arrivals
// among them (docs/SPECIFICATION.md §9). A slice passes as a pointer and a length.
#![tactic(auto)]

ghost use Rattle.std.specs.Prelude.{◌≡◌, length};
ghost use Rattle.table.specs.Verdict.{opinion_of};
ghost use Rattle.table.specs.Opinion.{shown_of};
ghost use Rattle.session.specs.Start.{start_of};
ghost use Rattle.session.specs.Calls.{arrive_of, choose_of, advance_of, finish_of};
ghost use Rattle.session.specs.Batch.{after_all, answered_all};
ghost use Rattle.explain.specs.Explain.{told_of, buffer_of};
ghost use Rattle.meter.specs.Meter.{measure_of};
ghost use Rattle.host.specs.Explain.{telling_reply};
ghost use Rattle.host.specs.Meter.{meter_reply, shape_of};
ghost use Rattle.host.specs.Reply.{in_numbers, reply_of, start_reply, answered, judgement_of};
ghost use Rattle.host.specs.Sound.{sound_number_lem};

use explain::{Told, Untold};
use meter::{BadShape, Shape};
use session::sound::is_sound;
use session::{Arrival, Session};
use table::Refusal;

// An answer in numbers: its number, 0 where the call is accepted; the words that a choice used; and two values. The number
// stays a `u64`: the C interface.
#[repr(C)]
#[derive(Clone, Copy)]
pub struct Reply {
    pub number: u64,
    pub used: u64,
    pub first: u64,
    pub second: u64,
}

// An opinion in numbers: its number, 0 where the table is admitted; two values; and V of each row. The C interface too.
#[repr(C)]
#[derive(Clone, Copy)]
pub struct Judgement {
    pub number: u64,
    pub first: u64,
    pub second: u64,
    pub budgets: [i64; 16],
}

impl From<lent::Reply> for Reply {
    ghost from_gives = { λ r n. n ≡ in_numbers r };

    fn from(r: lent::Reply) -> Reply {
        let n = session::show(r.answer);
        Reply {
            number: n.number,
            used: r.used,
            first: n.first,
            second: n.second,
        }
    }
}

// A start uses no word.
impl From<Result<table::Judgement, Refusal>> for Reply {
    ghost from_gives = { λ o n. n ≡ start_reply o };

    fn from(o: Result<table::Judgement, Refusal>) -> Reply {
        let v = table::shown(o);
        Reply {
            number: v.number,
            used: 0,
            first: v.first,
            second: v.second,
        }
    }
}

impl From<Result<Told, Untold>> for Reply {
    ghost from_gives = { λ t n. n ≡ telling_reply t };

    fn from(t: Result<Told, Untold>) -> Reply {
        match t {
            Ok(told) => Reply {
                number: 0,
                used: told.used,
                first: told.length,
                second: 0,
            },
            Err(Untold::Unsound) => Reply {
                number: 5,
                used: 0,
                first: 0,
                second: 0,
            },
            Err(Untold::InForce(left)) => Reply {
                number: 8,
                used: 0,
                first: left,
                second: 0,
            },
            Err(Untold::Short(n)) => Reply {
                number: 15,
                used: 0,
                first: n,
                second: 0,
            },
        }
    }
}

impl From<Result<u64, BadShape>> for Reply {
    ghost from_gives = { λ m n. n ≡ meter_reply m };

    fn from(m: Result<u64, BadShape>) -> Reply {
        match m {
            Ok(n) => Reply {
                number: 0,
                used: 0,
                first: n,
                second: 0,
            },
            Err(BadShape) => Reply {
                number: 14,
                used: 0,
                first: 0,
                second: 0,
            },
        }
    }
}

// V of each row; 0 in all places where the table is refused.
fn budgets_in(opinion: Result<table::Judgement, Refusal>) -> [i64; 16]
    ensures { result ≡ (shown_of opinion).budgets }
{
    match opinion {
        Ok(j) => j.budgets,
        Err(_) => [0; 16],
    }
}

impl From<Result<table::Judgement, Refusal>> for Judgement {
    ghost from_gives = { λ o n. n ≡ judgement_of (shown_of o) };

    fn from(opinion: Result<table::Judgement, Refusal>) -> Judgement {
        let said = table::shown(opinion);
        Judgement {
            number: said.number,
            first: said.first,
            second: said.second,
            budgets: budgets_in(opinion),
        }
    }
}

// No session is made.
#[unsafe(no_mangle)]
pub extern "C" fn shuffle_opinion(words: &[u32]) -> Judgement
    ensures { result ≡ judgement_of (opinion_of words.now) }
{
    Judgement::from(table::opinion(words))
}

// In place of whatever the record held, which a refused table leaves as it was.
#[unsafe(no_mangle)]
pub extern "C" fn shuffle_start(s: &mut Session, words: &[u32]) -> Reply
    ensures { (result ≡ answered (opinion_of words.now)) × (s.new ≡ start_of s.old words.now) }
{
    Reply::from(lent::start(s, words))
}

#[unsafe(no_mangle)]
pub extern "C" fn shuffle_arrive(s: &mut Session, row: u64) -> Reply
    ensures { (result ≡ reply_of (arrive_of s.old row)) × (s.new ≡ (arrive_of s.old row).session) }
{
    Reply::from(lent::arrive(s, row))
}

// The records of a list arrive in order; each gets its answer.
#[unsafe(no_mangle)]
pub extern "C" fn shuffle_arrive_all(s: &mut Session, list: &mut [Arrival])
    ensures { (s.new ≡ after_all s.old list.old) × (list.new ≡ answered_all s.old list.old) }
{
    lent::arrive_all(s, list);
}

#[unsafe(no_mangle)]
pub extern "C" fn shuffle_choose(s: &mut Session, words: &[u32]) -> Reply
    ensures { (result ≡ reply_of (choose_of s.old words.now)) × (s.new ≡ (choose_of s.old words.now).session) }
{
    Reply::from(lent::choose(s, words))
}

#[unsafe(no_mangle)]
pub extern "C" fn shuffle_advance(s: &mut Session, n: u64) -> Reply
    ensures { (result ≡ reply_of (advance_of s.old n)) × (s.new ≡ (advance_of s.old n).session) }
{
    Reply::from(lent::advance(s, n))
}

#[unsafe(no_mangle)]
pub extern "C" fn shuffle_finish(s: &mut Session) -> Reply
    ensures { (result ≡ reply_of (finish_of s.old)) × (s.new ≡ (finish_of s.old).session) }
{
    Reply::from(lent::finish(s))
}

// 1 or 0, and no `bool`: the C interface.
#[unsafe(no_mangle)]
pub extern "C" fn shuffle_is_sound(s: &Session) -> u32
    ensures { result ≡ sound_number_lem s.now }
{
    u32::from(is_sound(*s))
}

// The text of what choose answers on these words, and why, in a buffer of the host. The record is only read.
#[unsafe(no_mangle)]
pub extern "C" fn shuffle_explain(s: &Session, words: &[u32], out: &mut [u8]) -> Reply
    ensures { (result ≡ telling_reply (told_of s.now words.now (length out.old))) × (out.new ≡ buffer_of s.now words.now out.old) }
{
    Reply::from(lent::explain(s, words, out))
}

// How mixed a schedule is: stretches one after another, a row number per tick. Four numbers, and no `Shape`: the C interface.
#[unsafe(no_mangle)]
pub extern "C" fn shuffle_meter(
    rows: &[u8],
    stretches: usize,
    ticks: usize,
    window: usize,
    threshold: u64,
) -> Reply
    ensures { result ≡ meter_reply (measure_of rows.now (shape_of stretches ticks window threshold)) }
{
    let shape = Shape {
        stretches,
        ticks,
        window,
        threshold,
    };
    Reply::from(meter::measure(rows, shape))
}
