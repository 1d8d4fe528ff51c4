// One line, and the end of a table (docs/SPECIFICATION.md §8.6).
ghost use Rattle.std.specs.Prelude.{◌≡◌, length};
ghost use Rattle.lines.specs.declared.read.Line.TheVariants.{Row};
ghost use Rattle.desk.specs.Step.{Ready, Unread, draft_of, Answered, Closed, LineDid, last_text, Finished};

use decimal::write::put_byte;
use lines::read::Line;
use lines::write::put_line;
use table::rows::put_row;

// What the lines so far have led to, besides the rows of the table at hand: those are in an array beside it, since there is no heap.
#[derive(Clone, Copy)]
pub struct Progress {
    // How many rows it has.
    pub count: usize,
    // Whether a line of it was unreadable. No Option in place of the count: the rows of a spoiled table are counted too.
    pub spoiled: bool,
    // The number of the next line.
    pub line: u64,
    // How many bytes are written.
    pub end: usize,
}

// Prints that the line is unreadable, which spoils its table. `lesson` has one over its own record, and ends there: one function
// for both would have to be told what follows.
fn unreadable(p: Progress, out: &mut [u8]) -> Progress
    requires { Ready p out.old }
    ensures { Unread p result out.old out.new }
{
    let end = put_line(out, p.end, 0, b'?', 13, p.line, 0);
    Progress {
        spoiled: true,
        line: p.line + 1,
        end,
        ..p
    }
}

// The opinion on the table at hand, unless that is spoiled.
fn put_answer(p: Progress, words: &[u32], out: &mut [u8]) -> usize
    requires { Ready p out.old × (length words.now ≡ 48) }
    ensures { Answered p words.now out.old out.new result }
{
    if p.spoiled {
        return p.end;
    }
    let count = p.count;
    let e = 3 * count;
    let opinion = table::opinion(&words[..e]);
    report::put_opinion(out, p.end, opinion, count)
}

// The table at hand ends.
fn close(p: Progress, words: &[u32], out: &mut [u8]) -> Progress
    requires { Ready p out.old × (length words.now ≡ 48) }
    ensures { Closed p words.now result out.old out.new }
{
    let e = put_answer(p, words, out);
    let end = put_byte(out, e, b'\n');
    Progress {
        count: 0,
        spoiled: false,
        line: p.line + 1,
        end,
    }
}

// A row more of the table at hand; a seventeenth is unreadable.
fn add(
    p: Progress,
    run: u32,
    period: u32,
    deadline: u32,
    words: &mut [u32],
    out: &mut [u8],
) -> Progress
    requires { Ready p out.old × (length words.old ≡ 48) }
    ensures { LineDid (Row run period deadline) p result words.old words.new out.old out.new }
{
    if 16 <= p.count {
        return unreadable(p, out);
    }
    put_row(words, p.count, run, period, deadline);
    Progress {
        count: p.count + 1,
        line: p.line + 1,
        ..p
    }
}

// One line. Internal: the loop over the lines has seen to the room.
pub fn step(p: Progress, line: Line, words: &mut [u32], out: &mut [u8]) -> Progress
    requires { Ready p out.old × (length words.old ≡ 48) }
    ensures { LineDid line p result words.old words.new out.old out.new }
{
    match line {
        Line::Row {
            run,
            period,
            deadline,
        } => add(p, run, period, deadline, words, out),
        Line::Word(_) => unreadable(p, out),
        Line::Call(_) => unreadable(p, out),
        Line::Empty => close(p, words, out),
        Line::Unreadable => unreadable(p, out),
    }
}

// The end of the input, which ends a table that has a line. Internal: as `step`.
pub fn finish(p: Progress, words: &[u32], out: &mut [u8]) -> usize
    requires { Ready p out.old × (length words.now ≡ 48) }
    ensures { Finished (last_text (draft_of words.now p)) p out.old out.new result }
{
    if p.spoiled || p.count != 0 {
        return close(p, words, out).end;
    }
    p.end
}
