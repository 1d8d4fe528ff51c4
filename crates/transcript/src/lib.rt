// The text that `shuffle` reads and writes, as one function from bytes to bytes (docs/SPECIFICATION.md §8).
#![tactic(auto)]

ghost use Rattle.std.specs.Prelude.{◌≡◌, ◌≤◌, length};
ghost use Rattle.decimal.specs.Buffer.{Wrote};
ghost use Rattle.lines.specs.Lines.{lines_of};
ghost use Rattle.transcript.specs.Transcript.{input_limit, printed_of, room_for, Transcribed};
ghost use Rattle.transcript.specs.Plays.{room_of};

pub mod opening;
mod play;
pub mod rows;
pub mod step;

// How many bytes of the input are read.
const INPUT: usize = 65536;

// A buffer of this length holds every output.
pub const LONGEST: usize = 1443356;

// How long a buffer has to be for n bytes of input. The numbers are those of this output alone.
pub fn room_for(n: usize) -> usize
    ensures { result ≡ room_for n }
{
    1564 + 22 * n.min(INPUT)
}

// A text that may be read whole.
fn print(text: &[u8], out: &mut [u8]) -> usize
    requires { (length text.now ≤ input_limit) × (room_of text.now ≤ length out.old) }
    ensures { Wrote (room_of text.now) (printed_of (lines_of text.now)) out.old out.new 0 result }
{
    let t = opening::begin(text, out);
    let p = t.play;
    if p.over {
        return p.end;
    }
    let session = t.session;
    play::play(text, t.at, session, p, out)
}

// Writes the answers to the first 65,536 bytes of the input to the start of `out`, and gives their length. A buffer shorter
// than `room_for` says is left as it is, and the answer is 0.
pub fn transcribe(input: &[u8], out: &mut [u8]) -> usize
    ensures { Transcribed input.now out.old out.new result }
{
    if out.len() < room_for(input.len()) {
        return 0;
    }
    let n = input.len().min(INPUT);
    print(&input[..n], out)
}
