// A choice explained (docs/SPECIFICATION.md §11): what choose answers on the same session and words, and what led to it. No session
// changes, and no word is used up.
#![tactic(auto)]

ghost use Rattle.std.specs.Prelude.{◌≡◌, true, ◌+◌, ◌≤◌, length};
ghost use Rattle.decimal.specs.Buffer.{Wrote};
ghost use Rattle.session.specs.Sound.{sound};
ghost use Rattle.session.specs.Brittle.{Marks};
ghost use Rattle.wording.specs.Text.{text_of};
ghost use Rattle.explain.specs.Explain.{explanation_of, explain_in, explain_of, told_in, buffer_in, told_of, buffer_of};

use parts::account_of;
use session::brittle::brittle_rows;
use session::sound::check_of;
use session::{Answer, Session};
use wording::Parts;
use wording::text::put_text;

mod parts;

// How long a buffer for a text has to be.
const LEAST: usize = 2048;

// Choose's answer, how many words it uses, and the parts of the explanation; no parts where it is refused.
#[derive(Clone, Copy)]
pub struct Explained {
    pub answer: Answer,
    pub used: u64,
    pub parts: Parts,
}

// What is said of a text: its length, and how many words choose uses.
#[derive(Clone, Copy)]
pub struct Told {
    pub length: u64,
    pub used: u64,
}

// Why there is no text.
#[derive(Clone, Copy)]
pub enum Untold {
    // 5: the session is not sound.
    Unsound,
    // 8: a choice is in force; its ticks left.
    InForce(u64),
    // 15: the buffer is too short; its length.
    Short(u64),
}

// `explain` of a sound session, by its brittle rows.
fn explain_by(s: Session, brittle: [bool; 16], words: &[u32]) -> Explained
    requires { (sound s ≡ true) × Marks s brittle }
    ensures { result ≡ explain_in s words.now }
{
    let span = s.span;
    if 0 < span {
        return Explained {
            answer: Answer::InForce(span),
            used: 0,
            parts: Parts::none(),
        };
    }
    let a = account_of(s, brittle, words);
    let parts = a.parts;
    Explained {
        answer: Answer::Chosen {
            row: parts.chosen,
            span: parts.span,
        },
        used: a.used,
        parts,
    }
}

// The explanation of what choose answers on this session and these words.
pub fn explain(s: Session, words: &[u32]) -> Explained
    ensures { result ≡ explain_of s words.now }
{
    let Some(brittle) = check_of(s) else {
        return Explained {
            answer: Answer::Unsound,
            used: 0,
            parts: Parts::none(),
        };
    };
    explain_by(s, brittle, words)
}

// `tell` of a sound session, by its brittle rows.
fn tell_by(s: Session, brittle: [bool; 16], words: &[u32], out: &mut [u8]) -> Result<Told, Untold>
    requires { (sound s ≡ true) × Marks s brittle }
    ensures { (result ≡ told_in s words.now (length out.old)) × (out.new ≡ buffer_in s words.now out.old) }
{
    let span = s.span;
    if 0 < span {
        return Err(Untold::InForce(span));
    }
    let n = out.len();
    if n < LEAST {
        return Err(Untold::Short(n as u64));
    }
    let a = account_of(s, brittle, words);
    let e = put_text(out, 0, a.parts);
    Ok(Told {
        length: e as u64,
        used: a.used,
    })
}

// Writes the text of the explanation to the start of `out`. A buffer of fewer than 2,048 bytes is refused; where anything is
// refused, nothing is written.
pub fn tell(s: Session, words: &[u32], out: &mut [u8]) -> Result<Told, Untold>
    ensures { (result ≡ told_of s words.now (length out.old)) × (out.new ≡ buffer_of s words.now out.old) }
{
    let Some(brittle) = check_of(s) else {
        return Err(Untold::Unsound);
    };
    tell_by(s, brittle, words, out)
}

// The text alone, from a place on, for callers who can prove that the session is sound and have seen to the room; the answer is
// the place past it. A choice in force is not looked at.
pub fn put_sound(out: &mut [u8], at: usize, s: Session, words: &[u32]) -> usize
    requires { (sound s ≡ true) × (at + 1951 ≤ length out.old) }
    ensures { Wrote 1951 (text_of (explanation_of s words.now)) out.old out.new at result }
{
    let brittle = brittle_rows(s);
    let a = account_of(s, brittle, words);
    put_text(out, at, a.parts)
}
