// One line, and the end of the input (docs/SPECIFICATION.md §13.4).
ghost use Rattle.std.specs.Prelude.{◌≡◌, length};
ghost use Rattle.lesson.specs.declared.item.Item.TheVariants.{Row, Ask};
ghost use Rattle.lesson.specs.Step.{Ready, Unread, ItemDid, Finished};

use crate::item::Item;
use crate::releases::put_answer;
use lines::write::put_line;
use table::rows::put_row;

// What the lines so far have led to, besides the rows of the table: those are in an array beside it, since there is no heap.
#[derive(Clone, Copy)]
pub struct Progress {
    // How many rows it has.
    pub count: usize,
    // How many questions were asked.
    pub asked: u64,
    // The number of the next line.
    pub line: u64,
    // How many bytes are written.
    pub end: usize,
    // Whether output has ended.
    pub over: bool,
}

// Prints that the line is unreadable, which ends the output.
fn unreadable(p: Progress, out: &mut [u8]) -> Progress
    requires { Ready p out.old }
    ensures { Unread p result out.old out.new }
{
    let end = put_line(out, p.end, 0, b'?', 13, p.line, 0);
    Progress {
        line: p.line + 1,
        end,
        over: true,
        ..p
    }
}

// A row more; a seventeenth is unreadable.
fn add(
    p: Progress,
    run: u32,
    period: u32,
    deadline: u32,
    words: &mut [u32],
    out: &mut [u8],
) -> Progress
    requires { Ready p out.old × (length words.old ≡ 48) }
    ensures { ItemDid (Row run period deadline) p result words.old words.new out.old out.new }
{
    if 16 <= p.count {
        return unreadable(p, out);
    }
    put_row(words, p.count, run, period, deadline);
    Progress {
        count: p.count + 1,
        line: p.line + 1,
        over: false,
        ..p
    }
}

// A question; a thirteenth is unreadable.
fn ask(p: Progress, n: u32, words: &[u32], out: &mut [u8]) -> Progress
    requires { Ready p out.old × (length words.now ≡ 48) }
    ensures { ItemDid (Ask n) p result words.now words.now out.old out.new }
{
    if 12 <= p.asked {
        return unreadable(p, out);
    }
    let e = 3 * p.count;
    let end = put_answer(&words[..e], u64::from(n), out, p.end);
    Progress {
        asked: p.asked + 1,
        line: p.line + 1,
        end,
        over: false,
        ..p
    }
}

// One line. Internal: the loop over the lines has seen to the room.
pub fn step(p: Progress, item: Item, words: &mut [u32], out: &mut [u8]) -> Progress
    requires { Ready p out.old × (length words.old ≡ 48) }
    ensures { ItemDid item p result words.old words.new out.old out.new }
{
    match item {
        Item::Row {
            run,
            period,
            deadline,
        } => add(p, run, period, deadline, words, out),
        Item::Ask(n) => ask(p, n, words, out),
        Item::Unreadable => unreadable(p, out),
    }
}

// The end of the input, which is answered like N = 0 if nothing was asked. Internal: as `step`.
pub fn finish(p: Progress, words: &[u32], out: &mut [u8]) -> usize
    requires { Ready p out.old × (length words.now ≡ 48) }
    ensures { Finished p words.now out.old out.new result }
{
    if p.asked == 0 {
        let e = 3 * p.count;
        return put_answer(&words[..e], 0, out, p.end);
    }
    p.end
}
