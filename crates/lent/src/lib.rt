// The calls on a session record that the host lends (docs/SPECIFICATION.md §5.8). Each hands the record to the call by
// value and writes back the session that it leaves, so that a refused call writes back the same value; a refused start writes nothing.
#![tactic(auto)]

ghost use Rattle.std.specs.Prelude.{◌≡◌, length};
ghost use Rattle.table.specs.Verdict.{opinion_of};
ghost use Rattle.table.specs.Opinion.{shown_of};
ghost use Rattle.session.specs.Start.{start_of};
ghost use Rattle.session.specs.Calls.{arrive_of, choose_of, advance_of, finish_of};
ghost use Rattle.session.specs.Batch.{after_all, answered_all};
ghost use Rattle.explain.specs.Explain.{told_of, buffer_of};
ghost use Rattle.lent.specs.Reply.{reply_of};

use explain::{Told, Untold};
use session::start::start_by;
use session::{Answer, Arrival, Outcome, Session};
use table::{Judgement, Refusal};

// What the host sees of a call: the answer, and how many words a choice used.
#[derive(Clone, Copy)]
pub struct Reply {
    pub answer: Answer,
    pub used: u64,
}

// What the host sees of an outcome. The session that the call leaves goes into the record.
fn hand_back(o: Outcome, s: &mut Session) -> Reply
    ensures { (result ≡ reply_of o) × (s.new ≡ o.session) }
{
    *s = o.session;
    Reply {
        answer: o.answer,
        used: o.used,
    }
}

pub fn arrive(s: &mut Session, row: u64) -> Reply
    ensures { (result ≡ reply_of (arrive_of s.old row)) × (s.new ≡ (arrive_of s.old row).session) }
{
    hand_back(calls::arrive::arrive(*s, row), s)
}

// The records of a list arrive in order; each gets its answer.
pub fn arrive_all(s: &mut Session, list: &mut [Arrival])
    ensures { (s.new ≡ after_all s.old list.old) × (list.new ≡ answered_all s.old list.old) }
{
    *s = batch::arrive_all(*s, list);
}

pub fn choose(s: &mut Session, words: &[u32]) -> Reply
    ensures { (result ≡ reply_of (choose_of s.old words.now)) × (s.new ≡ (choose_of s.old words.now).session) }
{
    hand_back(choice::choose(*s, words), s)
}

pub fn advance(s: &mut Session, n: u64) -> Reply
    ensures { (result ≡ reply_of (advance_of s.old n)) × (s.new ≡ (advance_of s.old n).session) }
{
    hand_back(calls::advance::advance(*s, n), s)
}

pub fn finish(s: &mut Session) -> Reply
    ensures { (result ≡ reply_of (finish_of s.old)) × (s.new ≡ (finish_of s.old).session) }
{
    hand_back(calls::finish::finish(*s), s)
}

// In place of whatever the record held, which a refused table leaves as it was. The opinion and the session come one by one: in the
// record that `start_on` gives, the session is copied once more, and a refused start would copy it too (docs/PERFORMANCE.md).
pub fn start(s: &mut Session, words: &[u32]) -> Result<Judgement, Refusal>
    ensures { (shown_of result ≡ opinion_of words.now) × (s.new ≡ start_of s.old words.now) }
{
    let opinion = table::opinion(words);
    if opinion.is_err() {
        return opinion;
    }
    *s = start_by(*s, words, opinion);
    opinion
}

// The text of what choose answers on these words, and why, in a buffer of the host. The record is only read.
pub fn explain(s: &Session, words: &[u32], out: &mut [u8]) -> Result<Told, Untold>
    ensures { (result ≡ told_of s.now words.now (length out.old)) × (out.new ≡ buffer_of s.now words.now out.old) }
{
    explain::tell(*s, words, out)
}
