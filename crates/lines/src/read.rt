// A line of the input: which ones are readable, and what they say.
ghost use Rattle.std.specs.Prelude.{IfSome, ◌≡◌, [], ◌∷◌, ◌<◌, length};
ghost use Rattle.decimal.specs.Number.{number_of};
ghost use Rattle.lines.specs.Parted.{parted, Found};
ghost use Rattle.lines.specs.Line.{bare_of, single_of_lem, triple_of, given, given_three, line_in, line_of};
ghost use Rattle.lines.specs.Lines.{Took};

use decimal::read::read_number;

#[derive(Clone, Copy)]
pub enum Call {
    // `A`: a job of this row arrives.
    Arrive(u32),
    // `G`: choose.
    Choose,
    // `R`: the clock rises by this.
    Advance(u32),
    // `F`: the chosen job is over.
    Finish,
}

#[derive(Clone, Copy)]
pub enum Line {
    // `T`: a row of the table, C, T and D.
    Row {
        run: u32,
        period: u32,
        deadline: u32,
    },
    // `W`: a word for the queue.
    Word(u32),
    Call(Call),
    // Nothing before the newline.
    Empty,
    Unreadable,
}

// The first place of b in s.
pub fn place(s: &[u8], b: u8) -> Option<usize>
    ensures first { Found b s.now result }
    ensures within { IfSome result (λ i. i < length s.now) }
{
    s.iter().position(|&x| x == b)
}

#[tactic(auto, using(crate::specs::Code::bare_cases))]
fn bare(c: u8) -> Line
    ensures { result ≡ bare_of c }
{
    match c {
        b'G' => Line::Call(Call::Choose),
        b'F' => Line::Call(Call::Finish),
        _ => Line::Unreadable,
    }
}

#[tactic(auto, using(crate::specs::Code::single_cases))]
fn single(c: u8, n: u32) -> Line
    ensures { result ≡ single_of_lem c n }
{
    match c {
        b'W' => Line::Word(n),
        b'A' => Line::Call(Call::Arrive(n)),
        b'R' => Line::Call(Call::Advance(n)),
        _ => Line::Unreadable,
    }
}

#[tactic(auto, using(crate::specs::Code::row_given))]
fn row(a: Option<u32>, b: Option<u32>, c: Option<u32>) -> Line
    ensures { result ≡ given_three (triple_of 84) a b c }
{
    let (Some(run), Some(period), Some(deadline)) = (a, b, c) else {
        return Line::Unreadable;
    };
    Line::Row {
        run,
        period,
        deadline,
    }
}

// What follows the letter `T` and a tab.
#[tactic(auto, using(crate::specs::Code::row_cases))]
fn read_row(rest: &[u8]) -> Line
    ensures { result ≡ line_in ((84 ∷ []) ∷ parted 9 rest.now) }
{
    let Some(e) = place(rest, b'\t') else {
        return Line::Unreadable;
    };
    let more = &rest[e + 1..];
    let Some(f) = place(more, b'\t') else {
        return Line::Unreadable;
    };
    let a = read_number(&rest[..e]);
    let b = read_number(&more[..f]);
    let c = read_number(&more[f + 1..]);
    row(a, b, c)
}

// What follows another letter and a tab.
#[tactic(auto, using(crate::specs::Code::number_cases))]
fn read_single(c: u8, rest: &[u8]) -> Line
    ensures { result ≡ given (single_of_lem c) (number_of rest.now) }
{
    match read_number(rest) {
        Some(n) => single(c, n),
        None => Line::Unreadable,
    }
}

// A line without its newline.
#[tactic(auto, using(crate::specs::Code::line_cases))]
pub fn read_line(line: &[u8]) -> Line
    ensures { result ≡ line_of line.now }
{
    if line.len() == 0 {
        return Line::Empty;
    }
    let c = line[0];
    if line.len() == 1 {
        return bare(c);
    }
    if c == b'\t' {
        return Line::Unreadable;
    }
    if line[1] != b'\t' {
        return Line::Unreadable;
    }
    let rest = &line[2..];
    if c == b'T' {
        return read_row(rest);
    }
    read_single(c, rest)
}

// A line, and the place past its newline.
#[derive(Clone, Copy)]
pub struct Next {
    pub line: Line,
    pub at: usize,
}

// The line that begins at a place of the text. Bytes after the last newline are one more line, and unreadable.
// Internal: its callers have tested that the place is within the text.
pub fn next_line(text: &[u8], at: usize) -> Next
    requires { at < length text.now }
    ensures { Took text.now at result }
{
    let rest = &text[at..];
    let Some(e) = place(rest, b'\n') else {
        return Next {
            line: Line::Unreadable,
            at: text.len(),
        };
    };
    let line = read_line(&rest[..e]);
    Next {
        line,
        at: at + e + 1,
    }
}
