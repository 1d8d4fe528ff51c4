// The text of an explanation, written into a lent buffer from a place on; each function gives the place past what it wrote. A
// number is written with the byte after it, the first of the next phrase. Internal: whoever calls these has seen to the room.
ghost use Rattle.std.specs.Prelude.{◌+◌, ◌≤◌, [], ◌∷◌, ◌++◌, length};
ghost use Rattle.decimal.specs.Buffer.{Wrote};
ghost use Rattle.wording.specs.Explanation.{held_in};
ghost use Rattle.wording.specs.Text.{job_text, brittle_text, chosen_text, decided_text, cause_text, text_of};
ghost use Rattle.wording.specs.Pieces.{rest, value_text, budget_text, candidate_text, count_text, waiting_text, choice_text, span_text};

use super::{Cause, Held, Parts};
use decimal::write::{put_byte, put_number};

// The bytes of a phrase.
fn put_bytes(out: &mut [u8], at: usize, phrase: &[u8]) -> usize
    requires { at + length phrase.now ≤ length out.old }
    ensures { Wrote (length phrase.now) phrase.now out.old out.new at result }
{
    let e = at + phrase.len();
    out[at..e].copy_from_slice(phrase);
    e
}

// A phrase, a number and the byte after it.
fn put_value(out: &mut [u8], at: usize, phrase: &[u8], n: u64, last: u8) -> usize
    requires { at + (length phrase.now + 21) ≤ length out.old }
    ensures { Wrote (length phrase.now + 21) (value_text phrase.now n last) out.old out.new at result }
{
    let e = put_bytes(out, at, phrase);
    put_number(out, e, n, last)
}

// A budget and the colon after it; a budget of 0 has the words that it holds later jobs back.
fn put_budget(out: &mut [u8], at: usize, budget: u64) -> usize
    requires { at + 26 ≤ length out.old }
    ensures { Wrote 26 (budget_text budget) out.old out.new at result }
{
    if budget == 0 {
        return put_bytes(out, at, b"0 (holds later jobs back):");
    }
    put_number(out, at, budget, b':')
}

// Whether a job was a candidate, after the colon.
fn put_candidate(out: &mut [u8], at: usize, candidate: bool) -> usize
    requires { at + 18 ≤ length out.old }
    ensures { Wrote 18 (rest (candidate_text candidate)) out.old out.new at result }
{
    if candidate {
        return put_bytes(out, at, b" candidate.\n");
    }
    put_bytes(out, at, b" not a candidate.\n")
}

// The line of a job.
fn put_job(out: &mut [u8], at: usize, j: Held) -> usize
    requires { at + 106 ≤ length out.old }
    ensures { Wrote 106 (job_text j) out.old out.new at result }
{
    let e = put_value(out, at, b"Row ", j.row, b',');
    let f = put_value(out, e, b" due at ", j.due, b',');
    let g = put_bytes(out, f, b" budget ");
    let h = put_budget(out, g, j.budget);
    put_candidate(out, h, j.candidate)
}

// The line that counts the jobs.
fn put_count(out: &mut [u8], at: usize, count: u64) -> usize
    requires { at + 36 ≤ length out.old }
    ensures { Wrote 36 (count_text count) out.old out.new at result }
{
    let e = put_value(out, at, b"Waiting jobs: ", count, b'.');
    put_byte(out, e, b'\n')
}

// That line, and one for each job.
fn put_jobs(out: &mut [u8], at: usize, jobs: &[Held]) -> usize
    requires { (length jobs.now ≤ 16) × (at + 1732 ≤ length out.old) }
    ensures { Wrote 1732 (waiting_text jobs.now) out.old out.new at result }
{
    let mut e = put_count(out, at, jobs.len() as u64);
    for &j in jobs {
        e = put_job(out, e, j);
    }
    e
}

// The line of the brittle deadline, in a mixed session.
fn put_brittle(out: &mut [u8], at: usize, brittle: Option<u64>) -> usize
    requires { at + 90 ≤ length out.old }
    ensures { Wrote 90 (brittle_text brittle) out.old out.new at result }
{
    match brittle {
        None => at,
        Some(d) => {
            let e = put_value(out, at, b"Brittle deadline ", d, b':');
            put_bytes(
                out,
                e,
                b" of the candidates only the first may be due later.\n",
            )
        }
    }
}

// What is chosen, and the comma after it.
fn put_chosen(out: &mut [u8], at: usize, chosen: u64) -> usize
    requires { at + 33 ≤ length out.old }
    ensures { Wrote 33 (chosen_text chosen ++ 44 ∷ []) out.old out.new at result }
{
    if chosen == 16 {
        return put_bytes(out, at, b"Chosen: idle,");
    }
    put_value(out, at, b"Chosen: row ", chosen, b',')
}

// The deciding word, or that there is none, after the comma.
fn put_decided(out: &mut [u8], at: usize, decided: Option<u64>) -> usize
    requires { at + 31 ≤ length out.old }
    ensures { Wrote 31 (rest (decided_text decided)) out.old out.new at result }
{
    match decided {
        None => put_bytes(out, at, b" no word decided.\n"),
        Some(w) => {
            let e = put_value(out, at, b" by word ", w, b'.');
            put_byte(out, e, b'\n')
        }
    }
}

// The line of the choice.
fn put_choice(out: &mut [u8], at: usize, chosen: u64, decided: Option<u64>) -> usize
    requires { at + 64 ≤ length out.old }
    ensures { Wrote 64 (choice_text chosen decided) out.old out.new at result }
{
    let e = put_chosen(out, at, chosen);
    put_decided(out, e, decided)
}

// What set the span, after the colon.
fn put_cause(out: &mut [u8], at: usize, cause: Cause) -> usize
    requires { at + 39 ≤ length out.old }
    ensures { Wrote 39 (rest (cause_text cause)) out.old out.new at result }
{
    match cause {
        Cause::Remaining => put_bytes(out, at, b" its remaining ticks.\n"),
        Cause::Word => put_bytes(out, at, b" set by a word.\n"),
        Cause::NoWord => put_bytes(out, at, b" the most allowed, for lack of a word.\n"),
        Cause::Nothing => put_bytes(out, at, b" nothing waits.\n"),
    }
}

// The line of the span.
fn put_span(out: &mut [u8], at: usize, span: u64, cause: Cause) -> usize
    requires { at + 65 ≤ length out.old }
    ensures { Wrote 65 (span_text span cause) out.old out.new at result }
{
    let e = put_value(out, at, b"Span ", span, b':');
    put_cause(out, e, cause)
}

// Writes the text of an explanation from a place on, and gives the place past it. Internal: the caller has seen to the room for
// the longest.
pub fn put_text(out: &mut [u8], at: usize, p: Parts) -> usize
    requires { (p.count ≤ 16) × (at + 1951 ≤ length out.old) }
    ensures { Wrote 1951 (text_of (held_in p)) out.old out.new at result }
{
    let e = put_jobs(out, at, &p.jobs[..p.count]);
    let f = put_brittle(out, e, p.brittle);
    let g = put_choice(out, f, p.chosen, p.decided);
    put_span(out, g, p.span, p.cause)
}
