// The parts of an explanation, read as if the bytes were its text: phrases are skipped by their length, and numbers that 64 bits
// do not hold are cut. Whether the bytes are that text is left to the caller, who compares them with the text of these parts.
ghost use Rattle.std.specs.Prelude.{◌≡◌, ◌+◌, ◌-◌, ◌*◌, ◌≤◌, drop, get_or};
ghost use Rattle.wording.specs.Explanation.{parts_of};
ghost use Rattle.reader.specs.Reading.{past_holds_lem, candidate_in, cause_in, explanation_from};
ghost use Rattle.reader.specs.Fitted.{cut, cut_all};
ghost use Rattle.reader.specs.Took.{Took, number_at, job_at, jobs_at, brittle_at, chosen_at, decided_at};

use wording::{Cause, Held, Parts};

// What was read, and the place past it.
#[derive(Clone, Copy)]
pub struct Found<T> {
    pub value: T,
    pub at: usize,
}

// The place n bytes further, or the end.
pub fn skip(text: &[u8], at: usize, n: usize) -> usize
    ensures { drop result text.now ≡ drop n (drop at text.now) }
{
    at.saturating_add(n).min(text.len())
}

// The byte i places further, or 0.
fn byte(text: &[u8], at: usize, i: usize) -> u8
    ensures { result ≡ get_or (drop at text.now) i 0 }
{
    let e = skip(text, at, i);
    text.get(e).copied().unwrap_or(0)
}

// One more digit; the greatest u64 where the number is greater.
fn with_digit(value: u64, b: u8) -> u64
    requires { (48 ≤ b) × (b ≤ 57) }
    ensures { result ≡ cut (10 * value + (b - 48)) }
{
    value.saturating_mul(10).saturating_add(u64::from(b - b'0'))
}

// The digits that stand here.
fn read_number(text: &[u8], at: usize) -> Found<u64>
    ensures { Took (number_at (drop at text.now)) text.now result.value result.at }
{
    let mut value: u64 = 0;
    for i in at..text.len() {
        let b = text[i];
        if b < b'0' || b'9' < b {
            return Found { value, at: i };
        }
        value = with_digit(value, b);
    }
    Found {
        value,
        at: text.len(),
    }
}

// The number after a phrase of n bytes.
pub fn number_after(text: &[u8], at: usize, n: usize) -> Found<u64>
    ensures { Took (number_at (drop n (drop at text.now))) text.now result.value result.at }
{
    let e = skip(text, at, n);
    read_number(text, e)
}

// The place past the words that a budget of 0 has after it, if they stand here.
fn past_holds(text: &[u8], at: usize) -> usize
    ensures { drop result text.now ≡ past_holds_lem (drop at text.now) }
{
    let b = byte(text, at, 0);
    if b == b' ' {
        return skip(text, at, 24);
    }
    at
}

fn read_candidate(text: &[u8], at: usize) -> Found<bool>
    ensures { Took (candidate_in (drop at text.now)) text.now result.value result.at }
{
    let b = byte(text, at, 2);
    if b == b'c' {
        let e = skip(text, at, 13);
        return Found { value: true, at: e };
    }
    let e = skip(text, at, 19);
    Found {
        value: false,
        at: e,
    }
}

fn read_job(text: &[u8], at: usize) -> Found<Held>
    ensures { Took (job_at (drop at text.now)) text.now result.value result.at }
{
    let row = number_after(text, at, 4);
    let due = number_after(text, row.at, 9);
    let budget = number_after(text, due.at, 9);
    let e = past_holds(text, budget.at);
    let candidate = read_candidate(text, e);
    let value = Held {
        row: row.value,
        due: due.value,
        budget: budget.value,
        candidate: candidate.value,
    };
    Found {
        value,
        at: candidate.at,
    }
}

fn read_jobs(text: &[u8], at: usize, count: usize) -> Found<[Held; 16]>
    requires { count ≤ 16 }
    ensures { Took (jobs_at count (drop at text.now)) text.now result.value result.at }
{
    let p = Parts::none();
    let mut jobs = p.jobs;
    let mut e = at;
    for i in 0..count {
        let job = read_job(text, e);
        jobs[i] = job.value;
        e = job.at;
    }
    Found { value: jobs, at: e }
}

fn read_brittle(text: &[u8], at: usize) -> Found<Option<u64>>
    ensures { Took (brittle_at (drop at text.now)) text.now result.value result.at }
{
    let b = byte(text, at, 0);
    if b == b'B' {
        let d = number_after(text, at, 17);
        let e = skip(text, d.at, 53);
        return Found {
            value: Some(d.value),
            at: e,
        };
    }
    Found { value: None, at }
}

// 16 for idle.
fn read_chosen(text: &[u8], at: usize) -> Found<u64>
    ensures { Took (chosen_at (drop at text.now)) text.now result.value result.at }
{
    let b = byte(text, at, 8);
    if b == b'i' {
        let e = skip(text, at, 12);
        return Found { value: 16, at: e };
    }
    number_after(text, at, 12)
}

fn read_decided(text: &[u8], at: usize) -> Found<Option<u64>>
    ensures { Took (decided_at (drop at text.now)) text.now result.value result.at }
{
    let b = byte(text, at, 2);
    if b == b'b' {
        let w = number_after(text, at, 10);
        let e = skip(text, w.at, 2);
        return Found {
            value: Some(w.value),
            at: e,
        };
    }
    let e = skip(text, at, 19);
    Found { value: None, at: e }
}

fn read_cause(text: &[u8], at: usize) -> Cause
    ensures { result ≡ cause_in (drop at text.now) }
{
    match byte(text, at, 3) {
        b't' => Cause::Remaining,
        b'e' => Cause::Word,
        b'h' => Cause::NoWord,
        _ => Cause::Nothing,
    }
}

// All that follows the line that counts the jobs.
pub fn read_parts(text: &[u8], at: usize, count: usize) -> Parts
    requires { count ≤ 16 }
    ensures { result ≡ parts_of (cut_all (explanation_from count (drop at text.now))) }
{
    let js = read_jobs(text, at, count);
    let jobs = js.value;
    let brittle = read_brittle(text, js.at);
    let chosen = read_chosen(text, brittle.at);
    let decided = read_decided(text, chosen.at);
    let span = number_after(text, decided.at, 5);
    let cause = read_cause(text, span.at);
    Parts {
        jobs,
        count,
        brittle: brittle.value,
        chosen: chosen.value,
        decided: decided.value,
        span: span.value,
        cause,
    }
}
