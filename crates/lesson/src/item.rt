// A line of the input, as `contest` reads it (docs/SPECIFICATION.md §13.4).
ghost use Rattle.std.specs.Prelude.{◌≡◌, ◌<◌, length};
ghost use Rattle.decimal.specs.Number.{number_of};
ghost use Rattle.lines.specs.Line.{line_of};
ghost use Rattle.lesson.specs.Item.{asked, row_of, item_of};
ghost use Rattle.lesson.specs.Read.{Took};

use decimal::read::read_number;
use lines::read::{Line, place, read_line};

#[derive(Clone, Copy)]
pub enum Item {
    // `T`: a row of the table, C, T and D.
    Row {
        run: u32,
        period: u32,
        deadline: u32,
    },
    // `N`: asks about so many ticks.
    Ask(u32),
    Unreadable,
}

// What follows the letter `N` and a tab.
#[tactic(auto, using(crate::specs::Read::ask_cases))]
fn read_ask(rest: &[u8]) -> Item
    ensures { result ≡ asked (number_of rest.now) }
{
    match read_number(rest) {
        Some(n) => Item::Ask(n),
        None => Item::Unreadable,
    }
}

// Another line is read as `shuffle` reads it; of those only a row has a meaning here.
#[tactic(auto, using(crate::specs::Read::other_cases))]
fn read_other(line: &[u8]) -> Item
    ensures { result ≡ row_of (line_of line.now) }
{
    match read_line(line) {
        Line::Row {
            run,
            period,
            deadline,
        } => Item::Row {
            run,
            period,
            deadline,
        },
        Line::Word(_) | Line::Call(_) | Line::Empty | Line::Unreadable => Item::Unreadable,
    }
}

// A line without its newline.
#[tactic(auto, using(crate::specs::Read::item_cases))]
fn read_item(line: &[u8]) -> Item
    ensures { result ≡ item_of line.now }
{
    if line.len() < 2 || line[0] != b'N' || line[1] != b'\t' {
        return read_other(line);
    }
    read_ask(&line[2..])
}

// A line, and the place past its newline.
#[derive(Clone, Copy)]
pub struct Next {
    pub item: Item,
    pub at: usize,
}

// The line that begins at a place of the text. Bytes after the last newline are one more line, and unreadable. Internal: the loop
// over the lines has tested that the place is within the text.
// `lines::read::next_line` is the same with another reader: one function with the reader as a parameter would need clauses about
// it that are longer than both bodies, and be no plainer.
pub fn next_item(text: &[u8], at: usize) -> Next
    requires { at < length text.now }
    ensures { Took text.now at result }
{
    let rest = &text[at..];
    let Some(e) = place(rest, b'\n') else {
        return Next {
            item: Item::Unreadable,
            at: text.len(),
        };
    };
    let item = read_item(&rest[..e]);
    Next {
        item,
        at: at + e + 1,
    }
}
