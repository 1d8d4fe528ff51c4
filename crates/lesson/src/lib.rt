// The text that `contest` reads and writes, as one function from bytes to bytes (docs/SPECIFICATION.md §13.4).
#![tactic(auto)]

ghost use Rattle.std.specs.Prelude.{◌≤◌, length};
ghost use Rattle.decimal.specs.Buffer.{Wrote};
ghost use Rattle.lesson.specs.Item.{items_of};
ghost use Rattle.lesson.specs.Lesson.{input_limit, longest, no_table, answers_from, Answered};

use item::next_item;
use step::Progress;

mod item;
mod releases;
mod step;

// How many bytes of the input are read.
pub const INPUT: usize = 1024;

// A buffer of this length holds every output.
pub const LONGEST: usize = 38270;

// A text that may be read whole.
fn print(text: &[u8], out: &mut [u8]) -> usize
    requires { (length text.now ≤ input_limit) × (longest ≤ length out.old) }
    ensures { Wrote longest (answers_from 1 no_table (items_of text.now)) out.old out.new 0 result }
{
    let mut words = [0u32; 48];
    let mut p = Progress {
        count: 0,
        asked: 0,
        line: 1,
        end: 0,
        over: false,
    };
    let mut at: usize = 0;
    while at < text.len() {
        let n = next_item(text, at);
        let item = n.item;
        at = n.at;
        p = step::step(p, item, &mut words, out);
        if p.over {
            return p.end;
        }
    }
    step::finish(p, &words, out)
}

// Writes the answers to the first 1,024 bytes of the input to the start of `out`, and gives their length. A buffer shorter than
// `LONGEST` is left as it is, and the answer is 0.
pub fn contest(input: &[u8], out: &mut [u8]) -> usize
    ensures { Answered input.now out.old out.new result }
{
    if out.len() < LONGEST {
        return 0;
    }
    let n = input.len().min(INPUT);
    print(&input[..n], out)
}
