// The opinions on many tables, as one function from bytes to bytes (docs/SPECIFICATION.md §8.6).
#![tactic(auto)]

ghost use Rattle.std.specs.Prelude.{◌≡◌, ◌+◌, ◌*◌, ◌≤◌, length};
ghost use Rattle.decimal.specs.Buffer.{Wrote};
ghost use Rattle.lines.specs.Lines.{lines_of};
ghost use Rattle.desk.specs.Opinions.{input_limit, no_draft, answers_from, room_for, Advised};

use lines::read::next_line;
use step::Progress;

mod step;

// How many bytes of the input are read.
pub const INPUT: usize = 262144;

// A buffer of this length holds every output.
pub const LONGEST: usize = 2885148;

// How long a buffer has to be for n bytes of input. The numbers are those of this output alone.
pub fn room_for(n: usize) -> usize
    ensures { result ≡ room_for n }
{
    1564 + 11 * n.min(INPUT)
}

// A text that may be read whole.
fn print(text: &[u8], out: &mut [u8]) -> usize
    requires { (length text.now ≤ input_limit) × (1564 + 11 * length text.now ≤ length out.old) }
    ensures { Wrote (1564 + 11 * length text.now) (answers_from 1 no_draft (lines_of text.now)) out.old out.new 0 result }
{
    let mut words = [0u32; 48];
    let mut p = Progress {
        count: 0,
        spoiled: false,
        line: 1,
        end: 0,
    };
    let mut at: usize = 0;
    while at < text.len() {
        let n = next_line(text, at);
        let line = n.line;
        at = n.at;
        p = step::step(p, line, &mut words, out);
    }
    step::finish(p, &words, out)
}

// Writes the answers on the tables in the first 262,144 bytes of the input to the start of `out`, and gives their length. A
// buffer shorter than `room_for` says is left as it is, and the answer is 0.
pub fn opinions(input: &[u8], out: &mut [u8]) -> usize
    ensures { Advised input.now out.old out.new result }
{
    if out.len() < room_for(input.len()) {
        return 0;
    }
    let n = input.len().min(INPUT);
    print(&input[..n], out)
}
